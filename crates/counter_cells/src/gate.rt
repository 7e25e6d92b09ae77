// How the word of a gate is packed: the claim highest, below it 16 bits of pins, and the open bit lowest.
ghost use Rattle.std.specs.Prelude.{◌≡◌, ◌*◌, ◌^◌, ◌<◌, ◌==◌};
ghost use Rattle.counter_cells.specs.Gates.{gate_word, claim_shown, bit_shown, pins_shown, shows};

use rate_types::limits::MOST_CLAIM_NUMBERS;

/// One pin.
pub(crate) const PIN: u64 = 2;

/// The open bit.
pub(crate) const OPEN: u64 = 1;

/// The word of a closed gate without pins.
pub(crate) fn closed(claim: u64) -> u64
    requires { claim < MOST_CLAIM_NUMBERS }
    ensures { result ≡ gate_word claim 0 0 }
{
    claim * 131_072
}

/// The word with the same claim and open bit, and no pin.
pub(crate) fn without_pins(word: u64) -> u64
    ensures { result ≡ gate_word (claim_shown word) (bit_shown word) 0 }
{
    word / 131_072 * 131_072 + word % 2
}

pub(crate) fn claim_of(word: u64) -> u64
    ensures { result ≡ claim_shown word }
{
    word / 131_072
}

pub(crate) fn is_open(word: u64) -> bool
    ensures { result ≡ (bit_shown word == 1) }
{
    word % 2 == 1
}

/// Whether the gate is open under the claim.
pub(crate) fn shows(word: u64, claim: u64) -> bool
    ensures { result ≡ shows claim word }
{
    is_open(word) && claim_of(word) == claim
}

pub(crate) fn pins_of(word: u64) -> u32
    ensures { result ≡ pins_shown word }
{
    (word / 2 % 65536) as u32
}
