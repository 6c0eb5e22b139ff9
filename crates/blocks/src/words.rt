// Operations on words, and the port that a select word names.
ghost use Rattle.std.specs.Prelude.{◌≡◌, ◌<◌};
ghost use Rattle.std.proofs.Math.Option.{some};
ghost use Rattle.blocks.specs.Words.{operate, reach};

// The operation on two words that m says, as a block of a net has it: document 01's number.
#[tactic(auto, unfolding(crate::specs::Words::operate))]
pub fn compute(m: u8, a: u32, b: u32) -> u32
    ensures { result ≡ operate m a b }
{
    match m {
        0 => a.wrapping_add(b),
        1 => a.wrapping_sub(b),
        2 => (a == b) as u32,
        _ => (a < b) as u32,
    }
}

// The port, of m, that select word s names.
#[tactic(auto, using(crate::proofs::Options::reach_is))]
pub fn port_of(m: u32, s: u32) -> u32
    requires { 0 < m }
    ensures s_value { reach m s ≡ some result }
    ensures upper_bound { result < m }
{
    if s < m { s } else { m - 1 }
}
