//! SipHash-2-4.
ghost use Rattle.std.specs.Prelude.{◌≡◌, ◌+◌, ◌*◌, ◌-◌, ◌%◌, ◌<◌, ◌++◌, length, slice_index, ℕ};
ghost use Rattle.message_cookies.specs.SipHash.{compressed, finalized, initial, padded, sip_round};
ghost use Rattle.message_cookies.specs.SipHash.{siphash, word_at};

/// The four words of the state.
#[derive(Clone, Copy)]
struct State {
    v0: u64,
    v1: u64,
    v2: u64,
    v3: u64,
}

/// SipHash-2-4 of two pieces of a message, one behind the other, under a key: a number whose lowest octet is the first of the eight that
/// are the code (Aumasson and Bernstein, "SipHash: a fast short-input PRF", 2012). Pieces, so that nothing is copied to stand before an
/// address.
pub fn siphash(key: [u8; 16], first: &[u8], second: &[u8]) -> u64
    ensures { result ≡ siphash key (first.now ++ second.now) }
{
    let mut state = initial(key_word(key, 0), key_word(key, 1));
    let words = (first.len() + second.len()) / 8 + 1;
    for i in 0..words {
        state = compressed(state, word(first, second, i));
    }
    finalized(state)
}

/// The state before the first word.
#[tactic(auto, unfolding(crate::specs::SipHash::initial))]
fn initial(low: u64, high: u64) -> State
    ensures { result ≡ initial low high }
{
    State {
        v0: low ^ 0x736F_6D65_7073_6575,
        v1: high ^ 0x646F_7261_6E64_6F6D,
        v2: low ^ 0x6C79_6765_6E65_7261,
        v3: high ^ 0x7465_6462_7974_6573,
    }
}

/// The state after one round.
fn sip_round(s: State) -> State
    ensures { result ≡ sip_round s }
{
    let a0 = s.v0.wrapping_add(s.v1);
    let a2 = s.v2.wrapping_add(s.v3);
    let a1 = s.v1.rotate_left(13) ^ a0;
    let a3 = s.v3.rotate_left(16) ^ a2;
    let b2 = a2.wrapping_add(a1);
    let b0 = a0.rotate_left(32).wrapping_add(a3);
    let b1 = a1.rotate_left(17) ^ b2;
    let b3 = a3.rotate_left(21) ^ b0;
    State {
        v0: b0,
        v1: b1,
        v2: b2.rotate_left(32),
        v3: b3,
    }
}

/// The state after one word of the message.
fn compressed(s: State, word: u64) -> State
    ensures { result ≡ compressed s word }
{
    let before = State {
        v3: s.v3 ^ word,
        ..s
    };
    let after = sip_round(sip_round(before));
    State {
        v0: after.v0 ^ word,
        ..after
    }
}

/// The code, of the state after the last word.
fn finalized(s: State) -> u64
    ensures { result ≡ finalized s }
{
    let before = State {
        v2: s.v2 ^ 0xFF,
        ..s
    };
    let after = sip_round(sip_round(sip_round(sip_round(before))));
    after.v0 ^ after.v1 ^ after.v2 ^ after.v3
}

/// One of the two words of a key.
#[tactic(auto, unfolding(crate::specs::SipHash::word_at))]
fn key_word(key: [u8; 16], i: usize) -> u64
    requires { i < 2 }
    ensures { result ≡ word_at key i }
{
    let at = 8 * i;
    u64::from_le_bytes([
        key[at],
        key[at + 1],
        key[at + 2],
        key[at + 3],
        key[at + 4],
        key[at + 5],
        key[at + 6],
        key[at + 7],
    ])
}

/// A word of the message as it is padded.
fn word(first: &[u8], second: &[u8], i: usize) -> u64
    requires { 8 * i < length first.now + length second.now + 8
        - (length first.now + length second.now) % 8 }
    ensures { result ≡ word_at (padded (first.now ++ second.now)) i }
{
    let at = 8 * i;
    u64::from_le_bytes([
        octet(first, second, at),
        octet(first, second, at + 1),
        octet(first, second, at + 2),
        octet(first, second, at + 3),
        octet(first, second, at + 4),
        octet(first, second, at + 5),
        octet(first, second, at + 6),
        octet(first, second, at + 7),
    ])
}

/// An octet of the message as it is padded.
fn octet(first: &[u8], second: &[u8], i: usize) -> u8
    requires { i < length first.now + length second.now + 8
        - (length first.now + length second.now) % 8 }
    ensures { result ≡ slice_index (padded (first.now ++ second.now)) i }
{
    let size = first.len() + second.len();
    if i < first.len() {
        first[i]
    } else if i < size {
        second[i - first.len()]
    } else if i % 8 == 7 {
        (size % 256) as u8
    } else {
        0
    }
}
