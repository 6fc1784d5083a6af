//! A name that is put to, and the new file that may take it: what each call of the system tells, and what it wants.

ghost use Rattle.std.specs.{Prelude.{◌≡◌, ◌≤◌, ◌++◌, true, false, ℕ, List, [], None, Some, IfOk, IfErr, OnOk, OnErr, string_bytes}, IoError.{error_kind}};
ghost use Rattle.std.specs.declared.io.ErrorKind.TheVariants.{OutOfMemory};
ghost use Rattle.outer_edge.specs.declared.facts.Facts.{Facts};
ghost use Rattle.outer_edge.specs.Replaced.{is_of_system, is_regular, is_alike, is_of_one_owner, is_absence, is_taken, is_want_of_room};
ghost use Rattle.outer_edge.specs.Replaced.{new_name, greatest_number, new_mode};

use crate::facts::Facts;
use std::io;

/// A name that is put to.
///
/// It says when a new file may take the name: it is no link, nothing stands there, or a regular file of this one name that
/// may be written to, and of the same owner, group and permissions as the new one, which is stored. And when the file may be
/// written in place: where one of these doesn't hold, or a call was refused for another reason than want of room. It says
/// how the new file may be named and made, and when a put may fail.
pub trait Place {
    /// A new file that doesn't have the name yet. It is given the name or removed.
    type New;

    /// The name is no link that is still to be followed.
    ghost IsItself: { Self → Type 0 };

    /// It is a link that may be followed.
    ghost MayFollow: { Self → Type 0 };

    /// Nothing stands under the name.
    ghost IsAbsent: { Self → Type 0 };

    /// This is found of the file under the name.
    ghost IsFound: { Self → Facts → Type 0 };

    /// What stands under the name may give way to a new file.
    ghost MayGiveWay: { Self → Type 0 };

    /// The file may be written in place.
    ghost MayWriteOver: { Self → Type 0 };

    /// The put may fail: the disk is full, or what was written isn't whole.
    ghost MayFail: { Self → Type 0 };

    /// A new file may have this path.
    ghost MayBeNamed: { Self → List ℕ → Type 0 };

    /// A new file may be made with these permissions.
    ghost MayHaveMode: { Self → ℕ → Type 0 };

    /// Another file has this path.
    ghost IsTaken: { Self → List ℕ → Type 0 };

    /// The file under the name has these bytes.
    ghost Has: { Self → List ℕ → Type 0 };

    /// The new file has these bytes.
    ghost Holds: { Self.New → List ℕ → Type 0 };

    /// All of the new file is stored.
    ghost IsStored: { Self.New → Type 0 };

    /// This is found of the new file.
    ghost IsMade: { Self.New → Facts → Type 0 };

    /// The new file is like what stands under the name.
    ghost IsAlike: { Self → Self.New → Type 0 };

    fn is_link(&self) -> bool
        ensures { result ≡ false → IsItself self.now };

    fn name(&self) -> &str
        ensures system { is_of_system result.now ≡ true → MayWriteOver self.now }
        ensures other { is_of_system result.now ≡ false → MayFollow self.now }
        ensures new { (number : ℕ) → 1 ≤ number → number ≤ greatest_number → MayBeNamed self.now (new_name result.now number) }
        ensures taken { ((number : ℕ) → 1 ≤ number → number ≤ greatest_number → IsTaken self.now (new_name result.now number)) → MayWriteOver self.now };

    /// Goes to the file that the link names.
    fn follow(&mut self) -> io::Result<()>
        requires { MayFollow self.old }
        ensures followed { OnOk result (IsItself self.new) }
        ensures refused { IfErr result (λ e. (error_kind e ≡ OutOfMemory → ⊥) → MayWriteOver self.new) };

    fn facts(&self) -> io::Result<Facts>
        ensures found { IfOk result (λ f. IsFound self.now f) }
        ensures mode { IfOk result (λ f. MayHaveMode self.now (new_mode (Some f))) }
        ensures unfit { IfOk result (λ f. is_regular f ≡ false → MayWriteOver self.now) }
        ensures absent { IfErr result (λ e. is_absence (error_kind e) ≡ true → IsAbsent self.now × MayGiveWay self.now) }
        ensures usual { IfErr result (λ e. is_absence (error_kind e) ≡ true → MayHaveMode self.now (new_mode None)) }
        ensures unknown { IfErr result (λ e. is_absence (error_kind e) ≡ false → MayWriteOver self.now) };

    /// Whether the file may be written to.
    fn opens(&self) -> bool
        ensures writable { result ≡ true → (f : Facts) → IsFound self.now f → is_regular f ≡ true → MayGiveWay self.now }
        ensures not { result ≡ false → MayWriteOver self.now };

    /// Makes an empty file of this path, with these permissions.
    fn make(&self, path: String, mode: u32) -> io::Result<Self::New>
        requires named { MayBeNamed self.now (string_bytes path) }
        requires mode { MayHaveMode self.now mode }
        ensures empty { IfOk result (λ new. Holds new []) }
        ensures alike { IfOk result (λ new. IsAbsent self.now → IsAlike self.now new) }
        ensures full { IfErr result (λ e. is_want_of_room (error_kind e) ≡ true → MayFail self.now) }
        ensures taken { IfErr result (λ e. is_taken (error_kind e) ≡ true → IsTaken self.now (string_bytes path)) }
        ensures refused { IfErr result (λ e. is_want_of_room (error_kind e) ≡ false → is_taken (error_kind e) ≡ false → MayWriteOver self.now) };

    fn new_facts(&self, new: &Self::New) -> io::Result<Facts>
        ensures made { IfOk result (λ n. IsMade new.now n) }
        ensures alike { IfOk result (λ n. (f : Facts) → IsFound self.now f → is_alike f n ≡ true → IsAlike self.now new.now) }
        ensures other { IfOk result (λ n. (f : Facts) → IsFound self.now f → is_of_one_owner f n ≡ false → MayWriteOver self.now) }
        ensures unknown { OnErr result (MayWriteOver self.now) };

    fn set_mode(&self, new: &mut Self::New, mode: u32) -> io::Result<()>
        ensures alike { OnOk result ((f n : Facts) → IsFound self.now f → IsMade new.old n → is_of_one_owner f n ≡ true → mode ≡ f.mode → IsAlike self.now new.new) }
        ensures bytes { (bytes : List ℕ) → Holds new.old bytes → Holds new.new bytes }
        ensures refused { OnErr result (MayWriteOver self.now) };

    /// Appends the bytes to the new file.
    fn fill(&self, new: &mut Self::New, bytes: &[u8]) -> io::Result<()>
        ensures bytes { OnOk result ((before : List ℕ) → Holds new.old before → Holds new.new (before ++ bytes.now)) }
        ensures failed { OnErr result (MayFail self.now) }
        ensures alike { IsAlike self.now new.old → IsAlike self.now new.new };

    /// Stores the new file. The system may tell only here that the disk is full.
    fn store(&self, new: &mut Self::New) -> io::Result<()>
        ensures stored { OnOk result (IsStored new.new) }
        ensures failed { OnErr result (MayFail self.now) }
        ensures bytes { (bytes : List ℕ) → Holds new.old bytes → Holds new.new bytes }
        ensures alike { IsAlike self.now new.old → IsAlike self.now new.new };

    /// Gives the new file the name, in place of what stands there; or hands it back.
    fn take_name(&self, new: Self::New) -> Result<(), Self::New>
        requires itself { IsItself self.now }
        requires gives_way { MayGiveWay self.now }
        requires alike { IsAlike self.now new }
        requires stored { IsStored new }
        ensures has { OnOk result ((bytes : List ℕ) → Holds new bytes → Has self.now bytes) }
        ensures refused { OnErr result (MayWriteOver self.now) };

    fn remove(&self, new: Self::New);

    /// Writes the file in place.
    fn write_over(&self, bytes: &[u8]) -> io::Result<()>
        requires { MayWriteOver self.now }
        ensures has { OnOk result (Has self.now bytes.now) }
        ensures failed { OnErr result (MayFail self.now) };
}
