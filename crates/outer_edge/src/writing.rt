//! Whole texts, written piece by piece.

ghost use Rattle.std.specs.Prelude.{◌≡◌, ◌+◌, ◌≤◌, length, OnOk, OnErr};
ghost use Rattle.outer_edge.specs.{Counts.{Rose, next_count}, Taken.{Appends, AppendsFront}};

use crate::sink::{Failed, Sink};

/// Writes all of the bytes, piece by piece. After `Failed` a front of them was taken. It takes no memory.
pub fn write_whole<K: Sink>(out: &mut K, bytes: &[u8]) -> Result<(), Failed>
    requires { length bytes.now ≤ K.room out.old }
    ensures all { OnOk result (Appends (K.taken out.old) (K.taken out.new) bytes.now) }
    ensures front { OnErr result (AppendsFront (K.taken out.old) (K.taken out.new) bytes.now) }
    ensures none_failed { OnOk result (K.faults out.new ≡ K.faults out.old) }
    ensures failed { OnErr result (Rose (K.faults out.old) (K.faults out.new)) }
    ensures once { OnErr result (K.faults out.new ≡ next_count (K.faults out.old)) }
    ensures faults { K.faults out.old ≤ K.faults out.new }
    ensures room { K.room out.old ≤ K.room out.new + length bytes.now }
{
    let mut done = 0;
    while done < bytes.len() {
        done += out.write(&bytes[done..])?;
    }
    Ok(())
}
