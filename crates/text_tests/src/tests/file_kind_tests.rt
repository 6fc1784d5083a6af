//! Files by their bytes.

use file_kind::{FileKind, Look, file_kind, look_line, looks_like};
use std::rt::HostRuntime;

static KINDS: [(&str, FileKind); 7] = [
    ("maxband-timing 1\ngrid 2\n", FileKind::Timing),
    ("maxband-certificate 2\n", FileKind::Certificate),
    ("maxband-links 1", FileKind::LinkCertificate),
    ("maxband-timing 1\r\n", FileKind::Description),
    ("[plan]\n", FileKind::Plan),
    ("[plan]\n[artery]\n", FileKind::Description),
    ("", FileKind::Description),
];

static LOOKS: [(&[u8], Look); 10] = [
    (b"", Look::Empty),
    (b"\xff\xfem\0", Look::Utf16),
    (b"maxband-timing 1\r\n", Look::WindowsLines),
    (b"\xef\xbb\xbfmaxband-timing 1\n", Look::Marked),
    (b"\xef\xbb\xbf[artery]", Look::Other),
    (b"<svg xmlns=", Look::Picture),
    (b"cycle,verdict,weighted", Look::Table),
    (b"change,place,", Look::Table),
    (b"signal,name,", Look::Table),
    (b"[artery]", Look::Other),
];

#[test]
fn kinds(rt: HostRuntime) {
    for (text, kind) in KINDS.iter() {
        let found = file_kind(rt.alloc(), text.as_bytes());
        assert!(rt; found == Ok(*kind));
    }
}

#[test]
fn looks(rt: HostRuntime) {
    for (bytes, look) in LOOKS.iter() {
        assert!(rt; looks_like(bytes) == *look);
    }
    assert_eq!(rt; look_line(Look::Other), "");
}
