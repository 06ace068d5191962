//! The buffer that an answer goes to.
ghost use Rattle.std.specs.Prelude.{◌≡◌, ◌↔◌, ◌<◌, ◌≤◌, ◌++◌, drop, length, IsTrue};

use bp_edges::MemorySink;

/// There was no memory.
pub(crate) const NO_MEMORY: u32 = 6;

/// The buffer is too short for the answer, or a slice has not its length.
pub(crate) const TOO_SHORT: u32 = 8;

/// What a line of words gives: the number of its status, and its text.
#[derive(Drop)]
pub(crate) struct Reply {
    pub(crate) status: u8,
    pub(crate) out: MemorySink,
}

/// Puts the text at the front of the buffer, where it fits, and says how long it is.
fn hand_out(text: &[u8], answer: &mut [u8], written: &mut u64) -> bool
    ensures fits { IsTrue result ↔ (length text.now ≤ length answer.old) }
    ensures filled { length text.now ≤ length answer.old → answer.new ≡ text.now ++ drop (length text.now) answer.old }
    ensures kept { length answer.old < length text.now → answer.new ≡ answer.old }
    ensures counted { written.new ≡ length text.now }
{
    *written = text.len() as u64;
    if text.len() > answer.len() {
        return false;
    }
    answer[..text.len()].copy_from_slice(text);
    true
}

/// The status of a reply and its text, or that the buffer is too short for it.
pub(crate) fn deliver(reply: &Reply, answer: &mut [u8], written: &mut u64) -> u32
    ensures no_memory { 3 < reply.now.status
        → (result ≡ NO_MEMORY) × (answer.new ≡ answer.old) × (written.new ≡ written.old) }
    ensures counted { reply.now.status ≤ 3 → written.new ≡ length reply.now.out.written }
    ensures filled { reply.now.status ≤ 3 → length reply.now.out.written ≤ length answer.old →
        (result ≡ reply.now.status)
        × (answer.new ≡ reply.now.out.written ++ drop (length reply.now.out.written) answer.old) }
    ensures short { reply.now.status ≤ 3 → length answer.old < length reply.now.out.written
        → (result ≡ TOO_SHORT) × (answer.new ≡ answer.old) }
{
    if reply.status > 3 {
        return NO_MEMORY;
    }
    if hand_out(reply.out.written(), answer, written) {
        u32::from(reply.status)
    } else {
        TOO_SHORT
    }
}
