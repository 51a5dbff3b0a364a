//! What two texts share at their beginning and at their end.

ghost use Rattle.std.specs.Prelude.{◌≡◌, ◌-◌, ◌≤◌, length, take, drop};

// How many bytes are compared at once.
const BLOCK: usize = 64;

// How many bytes are the same from the beginning on, in whole blocks.
fn shared_blocks(a: &[u8], b: &[u8]) -> usize
    ensures same { take result a.entry.now ≡ take result b.entry.now }
    ensures first { result ≤ length a.entry.now }
    ensures second { result ≤ length b.entry.now }
{
    let (mut rest, mut other) = (a, b);
    let mut at = 0;
    'pieces: while rest.len() >= BLOCK && other.len() >= BLOCK {
        let (block, later) = rest.split_at(BLOCK);
        let (another, behind) = other.split_at(BLOCK);
        if block != another {
            return at;
        }
        at += BLOCK;
        rest = later;
        other = behind;
    }
    at
}

// How many bytes are the same from the beginning on.
pub(crate) fn shared_front(a: &[u8], b: &[u8]) -> usize
    ensures same { take result a.now ≡ take result b.now }
    ensures first { result ≤ length a.now }
    ensures second { result ≤ length b.now }
{
    let most = a.len().min(b.len());
    let mut at = shared_blocks(a, b);
    'bytes: while at < most && a[at] == b[at] {
        at += 1;
    }
    at
}

// How many bytes are the same from the end on, in whole blocks.
fn shared_last_blocks(a: &[u8], b: &[u8]) -> usize
    ensures same { drop (length a.entry.now - result) a.entry.now ≡ drop (length b.entry.now - result) b.entry.now }
    ensures first { result ≤ length a.entry.now }
    ensures second { result ≤ length b.entry.now }
{
    let (mut rest, mut other) = (a, b);
    let mut at = 0;
    'pieces: while rest.len() >= BLOCK && other.len() >= BLOCK {
        let (before, block) = rest.split_at(rest.len() - BLOCK);
        let (earlier, another) = other.split_at(other.len() - BLOCK);
        if block != another {
            return at;
        }
        at += BLOCK;
        rest = before;
        other = earlier;
    }
    at
}

// How many bytes are the same from the end on.
pub(crate) fn shared_back(a: &[u8], b: &[u8]) -> usize
    ensures same { drop (length a.now - result) a.now ≡ drop (length b.now - result) b.now }
    ensures first { result ≤ length a.now }
    ensures second { result ≤ length b.now }
{
    let most = a.len().min(b.len());
    let mut at = shared_last_blocks(a, b);
    'bytes: while at < most && a[a.len() - 1 - at] == b[b.len() - 1 - at] {
        at += 1;
    }
    at
}
