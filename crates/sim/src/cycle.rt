// What every call begins with that looks at a cycle of an accepted net: its streams, the net laid out, and the tests of its state and streams.
ghost use Rattle.std.specs.Prelude.{◌≡◌, MatchResult};
ghost use Rattle.nets.specs.Promises.{Promises};
ghost use Rattle.rows.specs.Ends.{read};
ghost use Rattle.sim.specs.Laid.{tested_no, Failing, Prepared};

use blocks::{Kind, Net, Refusal, State};
use nets::Plan;
use rows::checks::{ends_fit, shape_ok};
use rows::flat::lay_out;
use rows::{Laid, Streams};
use trace::numbers::Numbers;

// Streams whose words and ends are given as lists.
// stays: makes one value of the two.
#[tactic(auto, unfolding(trace::specs::Numbers::numbers_of))]
pub fn listed<'a>(words: &'a [u32], ends: &'a [u32]) -> Streams<'a>
    ensures words_are { read result.words ≡ words.now }
    ensures ends_are { read result.ends ≡ ends.now }
{
    Streams {
        words: Numbers::of_list(words),
        ends: Numbers::of_list(ends),
    }
}

// Tests the state (13) and the ends (14), by the net that is laid out.
pub fn tested(laid: &Laid, state: &State, streams: Streams) -> Result<(), Refusal>
    ensures { let net = laid.now.net.now in let words = read streams.entry.words in let ends = read streams.entry.ends in MatchResult result (λ u. tested_no net state.now words ends ≡ 0) (λ refusal. Failing net state.now words ends refusal) }
{
    if !shape_ok(state, laid.net) {
        return Err(Refusal::State);
    }
    let sources = laid.sorted.of_kind(Kind::Source).len();
    if !ends_fit(sources, streams.words.len(), streams.ends) {
        return Err(Refusal::Streams);
    }
    Ok(())
}

// Lays the net out by its plan; tests the state (13) and the ends (14).
pub fn begin<'a>(
    net: &'a Net,
    plan: &Plan,
    state: &State,
    streams: Streams,
) -> Result<Laid<'a>, Refusal>
    requires { Promises net.now plan.now }
    ensures { Prepared net.now state.now (read streams.entry.words) (read streams.entry.ends) result }
{
    let laid = lay_out(net, plan);
    tested(&laid, state, streams)?;
    Ok(laid)
}
