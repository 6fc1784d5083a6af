//! Searches of links: 100 parts, a cycle of 100 seconds, 36 kilometres an hour, one or two links of the same length each way. The
//! certificates and the units of work are those of a second program, written apart from this one.

ghost use Rattle.std.specs.Prelude.{◌<◌};
ghost use Rattle.multi_band.specs.LinkTold.{AreLinksCertifiable};

use artery_model::Artery;
use branch_tree::Verdict;
use link_proof::{LinkCertificate, link_check, write_links};
use multi_band::{LinkFound, SearchedLinks, link_certificate, link_search, search_links_and_check};
use narrow_fraction::Frac;
use std::alloc::Global;
use std::rt::HostRuntime;
use std::test::Fail;
use test_bed::{
    TextReader, TextRecord, all_told, fraction, plain_head, plain_link, plain_signal,
    sample_street, two_signals, with_ratio,
};

/// Two signals with this red and so far apart, how much the inbound bands count, and a limit of work.
static STREET: &str = "red 50
apart 500
ratio 1 1
limit 0
";

/// Changes of `STREET`, and the certificate.
static FOUND: [&str; 8] = [
    // Both bands are whole greens.
    "limit 8 -> maxband-links 1\nverdict best\nvalue 1\ngrid 2\nunit 2\npattern 1 1\nred 0 100\nrun_out 100\nrun_in 100\nfirst 150 50\nhalf_out 50\nhalf_in 50\ntree\nleaf 4\nnear_out_a 1 1\nfar_out_a 1 1\nnear_in_a 1 1\nfar_in_a 1 1\nend\n",
    // Inbound bands count half.
    "ratio 1 2|limit 8 -> maxband-links 1\nverdict best\nvalue 3/4\ngrid 2\nunit 2\npattern 1 1\nred 0 100\nrun_out 100\nrun_in 100\nfirst 150 50\nhalf_out 50\nhalf_in 50\ntree\nleaf 4\nnear_out_a 1 1\nfar_out_a 1 1\nnear_in_a 1 1/2\nfar_in_a 1 1/2\nend\n",
    // Inbound bands don't count.
    "ratio 0 1|limit 8 -> maxband-links 1\nverdict best\nvalue 1/2\ngrid 2\nunit 2\npattern 1 1\nred 0 100\nrun_out 100\nrun_in 100\nfirst 150 50\nhalf_out 50\nhalf_in 50\ntree\nleaf 2\nnear_out_a 1 1\nfar_out_a 1 1\nend\n",
    // The start leaf alone: at signal 1 a wait and a half fit into the green.
    "limit 1 -> maxband-links 1\nverdict open\nbound 2\nno timing\ntree\nleaf 2\nfar_out_a 1 2\nfar_in_a 1 2\nend\n",
    "limit 7 -> maxband-links 1\nverdict open\nbound 2\nno timing\ntree\nleaf 2\nfar_out_a 1 2\nfar_in_a 1 2\nend\n",
    // At 250 metres the block sum is 0 or 1, and both bands share the green.
    "apart 250|limit 30 -> maxband-links 1\nverdict best\nvalue 1/2\ngrid 2\nunit 2\npattern 1 1\nred 0 150\nrun_out 50\nrun_in 50\nfirst 100 100\nhalf_out 0\nhalf_in 50\ntree\nsplit loop 1 0\nleaf 9\nfast_out 1 1\nfast_in 1 1\ncycle_low 50\nloop_hi 1 1\nturn_hi 2 1\nnear_out_a 1 1\nfar_out_b 1 1\nnear_in_a 1 1\nfar_in_b 1 1\nleaf 9\nslow_out 1 1\nslow_in 1 1\ncycle_high 50\nloop_lo 1 1\nturn_hi 1 1\nnear_out_b 1 1\nfar_out_a 1 1\nnear_in_b 1 1\nfar_in_a 1 1\nend\n",
    // The low part gave its link timing, and no unit is left for the high one.
    "apart 250|limit 18 -> maxband-links 1\nverdict open\nbound 1\nvalue 1/2\ngrid 2\nunit 2\npattern 1 1\nred 0 150\nrun_out 50\nrun_in 50\nfirst 100 100\nhalf_out 0\nhalf_in 50\ntree\nleaf 4\nnear_out_a 1 1\nfar_out_a 1 1\nnear_in_a 1 1\nfar_in_a 1 1\nend\n",
    // Greens of 20 meet no line of the other direction.
    "red 80|apart 250|limit 5 -> maxband-links 1\nverdict none\ntree\nleaf 2\nloop_lo 1 1\nloop_hi 1 1\nend\n",
];

/// Each link has a band of its own: those of link 1 are not cut by signal C.
static THREE: &str =
    "maxband-links 1\nverdict best\nvalue 7/5\ngrid 2\nunit 2\npattern 1 1 1\nred 0 100 170\nrun_out 100 100\nrun_in 100 100\nfirst 150 150\nhalf_out 50 20\nhalf_in 50 20\ntree\nleaf 9\nslow_out 2 2\nslow_in 2 2\ncycle_high 200\nloop_lo 2 2\nturn_hi 2 2\nnear_out_b 2 2\nfar_out_b 1 2\nnear_in_b 2 2\nfar_in_b 1 2\nend\n";

/// Reds of 50, 50 and 80.
fn three(alloc: Global) -> Result<Artery, Fail> {
    let signals = [
        plain_signal("A", 50),
        plain_signal("B", 50),
        plain_signal("C", 80),
    ];
    let links = [plain_link(500), plain_link(500)];
    match sample_street(alloc, plain_head(), &signals, &links) {
        Ok(artery) => Ok(artery),
        Err(_) => Err("no artery".into()),
    }
}

fn searched(alloc: Global, artery: &Artery, limit: u64) -> Result<SearchedLinks, Fail>
    requires { 0 < limit }
{
    match search_links_and_check(alloc, artery, Some(limit)) {
        Ok(searched) => Ok(searched),
        Err(_) => Err("no memory".into()),
    }
}

/// The text of a certificate, which is accepted.
fn text(alloc: Global, artery: &Artery, certificate: &LinkCertificate) -> Result<Vec<u8>, Fail> {
    if link_check(alloc, artery, certificate).is_err() {
        return Err("refused".into());
    }
    match write_links(alloc, certificate) {
        Ok(text) => Ok(text),
        Err(_) => Err("no memory".into()),
    }
}

/// The text of the certificate of a search within this limit, which spends all of it.
fn found_text(alloc: Global, artery: &Artery, limit: u64) -> Result<String, Fail>
    requires { 0 < limit }
{
    let searched = searched(alloc, artery, limit)?;
    if searched.found.spent != limit {
        return Err("another limit".into());
    }
    let text = text(alloc, artery, &searched.certificate)?;
    Ok(String::from_utf8(text)?)
}

/// Searches the links of two signals with the same red within a limit, and tells the certificate.
#[derive(Clone, Copy, Drop)]
struct Searches;

impl TextReader for Searches {
    fn answer(&self, alloc: Global, text: &[u8]) -> Result<String, Fail> {
        let record = TextRecord::new(text)?;
        let ratio = fraction(record.number("ratio", 0)?, record.number("ratio", 1)?)?;
        let (red, distance) = (record.small("red", 0)?, record.small("apart", 0)?);
        let artery = two_signals(alloc, with_ratio(ratio), red, distance)?;
        let limit = u64::from(record.small("limit", 0)?);
        if limit == 0 {
            return Err("no limit".into());
        }
        found_text(alloc, &artery, limit)
    }
}

#[test]
fn what_searches_of_two_signals_find(rt: HostRuntime) -> Result<(), Fail> {
    all_told(rt.alloc(), &Searches, STREET, &FOUND)
}

#[test]
fn each_link_has_its_own_band(rt: HostRuntime) -> Result<(), Fail> {
    let alloc = rt.alloc();
    let artery = three(alloc)?;
    assert_eq!(rt; found_text(alloc, &artery, 22)?.as_str(), THREE);
    Ok(())
}

/// Whether the certificate of an answer, made by itself, is accepted.
fn is_certified(alloc: Global, artery: &Artery, found: &LinkFound) -> bool
    requires { AreLinksCertifiable found.now }
{
    match link_certificate(alloc, artery, found) {
        Ok(certificate) => link_check(alloc, artery, &certificate).is_ok(),
        Err(_) => false,
    }
}

/// Whether a search without a limit, with nothing checked, finds a best link timing that is worth the whole cycle, whose certificate is
/// accepted.
fn is_found_alone(alloc: Global, artery: &Artery) -> bool {
    match link_search(alloc, artery, None) {
        Ok(found) => {
            matches!(&found.verdict, Verdict::Best)
                && found.bound == Frac::whole(1)
                && is_certified(alloc, artery, &found)
        }
        Err(_) => false,
    }
}

#[test]
fn a_search_alone_and_its_certificate(rt: HostRuntime) -> Result<(), Fail> {
    let artery = two_signals(rt.alloc(), plain_head(), 50, 500)?;
    assert!(rt; is_found_alone(rt.alloc(), &artery));
    Ok(())
}
