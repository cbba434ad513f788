// The parameter byte of a clock board: eight switches that say how the board sends on its serial line.
// What a switch means is the board's own matter, in a module for each board.
#![tactic(auto)]

pub mod of_6036;
pub mod of_6038;

ghost use Rattle.std.specs.Prelude.{◌≡◌, cond, ◌||◌, [], ◌∷◌, ◌*◌, ◌≤◌, eqb, position};
ghost use Rattle.bits.specs.Bits.{bit};
ghost use Rattle.board_rules.specs.Switches.{byte_of};
ghost use Rattle.board_rules.specs.Rates.{rate_at, rate_row};
ghost use Rattle.board_rules.specs.Settings.{at_parity, is_offered};

pub use board_rules::Parity;

// What each switch weighs in the byte. Switch 1 is the lowest bit.
const SWITCH_1: u8 = 1;

const SWITCH_2: u8 = 2;

const SWITCH_3: u8 = 4;

const SWITCH_4: u8 = 8;

const SWITCH_5: u8 = 16;

const SWITCH_6: u8 = 32;

const SWITCH_7: u8 = 64;

const SWITCH_8: u8 = 128;

// The rates in the order of the table, whose first row is on on on and whose last is off off off.
const RATES: [u32; 8] = [150, 300, 600, 1200, 2400, 4800, 9600, 19200];

// What a switch chooses between two numbers.
fn pick(on: bool, this: u8, other: u8) -> u8
    ensures { result ≡ cond on this other }
{
    if on { this } else { other }
}

// Whether a number is one of two.
fn is_either(number: u8, one: u8, other: u8) -> bool
    ensures { result ≡ (eqb number one || eqb number other) }
{
    number == one || number == other
}

// What a switch adds to a sum: its weight where it is on.
fn weigh(weight: u8, on: bool) -> u8
    ensures { (result ≡ weight * bit on) × (result ≤ weight) }
{
    weight * u8::from(on)
}

// The rate at three switches, given in the order in which the board's table names them.
fn rate_at(first: bool, second: bool, third: bool) -> u32
    ensures { result ≡ rate_at first second third }
{
    let row = weigh(4, !first) + weigh(2, !second) + weigh(1, !third);
    RATES[row as usize]
}

// The first row of a table that has a rate, if any has it.
fn row_in(table: &[u32], baud: u32) -> Option<usize>
    ensures { result ≡ position (λ rate. eqb rate baud) table.now }
{
    table.iter().position(|rate| *rate == baud)
}

// The row of a rate, or 8 where it stands in none.
fn row_of(baud: u32) -> u8
    ensures { result ≡ rate_row baud }
{
    row_in(&RATES, baud).unwrap_or(RATES.len()) as u8
}

// What a switch is at a parity, of what it is at none, at even and at odd.
fn at_parity(parity: Parity, none: bool, even: bool, odd: bool) -> bool
    ensures { result ≡ at_parity parity none even odd }
{
    match parity {
        Parity::None => none,
        Parity::Even => even,
        Parity::Odd => odd,
    }
}

// Whether the boards have switches for these three. They have some for every parity.
fn is_offered(data_bits: u8, stop_bits: u8, baud: u32) -> bool
    ensures { result ≡ is_offered data_bits stop_bits baud }
{
    is_either(data_bits, 8, 7) && is_either(stop_bits, 1, 2) && row_of(baud) < 8
}

// The byte of eight switches, from switch 1 on.
fn byte_of(
    first: bool,
    second: bool,
    third: bool,
    fourth: bool,
    fifth: bool,
    sixth: bool,
    seventh: bool,
    eighth: bool,
) -> u8
    ensures { result ≡ byte_of (first ∷ second ∷ third ∷ fourth ∷ fifth ∷ sixth ∷ seventh ∷ eighth ∷ []) }
{
    weigh(SWITCH_1, first)
        + weigh(SWITCH_2, second)
        + weigh(SWITCH_3, third)
        + weigh(SWITCH_4, fourth)
        + weigh(SWITCH_5, fifth)
        + weigh(SWITCH_6, sixth)
        + weigh(SWITCH_7, seventh)
        + weigh(SWITCH_8, eighth)
}
