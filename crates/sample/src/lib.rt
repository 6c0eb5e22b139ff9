// A sample run of a stored net, the one that netrun shows: 1, 2, 3 for every source, all masks set, 6 cycles.
#![tactic(auto)]

ghost use Rattle.std.specs.Prelude.{◌≡◌, length};
ghost use Rattle.nets.specs.Net.{kind_count};
ghost use Rattle.nets.specs.Verdict.{Joined};
ghost use Rattle.sample.specs.Sample.{sample_words, ends_for, sample_run, sample_trace, SampledForm};

use blocks::Kind;
use nets::Net;
use runs::Run;

// What comes of a form: its refusal; or 0, the cycles done and the records in the trace. Its clause, `SampledForm`, says each field beside a refusal too.
#[derive(Clone, Copy)]
pub struct Sampled {
    pub refusal: u8,
    pub cycles: u32,
    pub records: u32,
}

// 1, 2, 3 for each of 32 sources, one source after another; a net with fewer leaves the last words to nobody.
pub fn one_two_three() -> [u32; 96]
    ensures { result ≡ sample_words }
{
    let mut words = [0u32; 96];
    for (i, word) in words.iter_mut().enumerate() {
        *word = (i % 3) as u32 + 1;
    }
    words
}

// Where the words of each of 32 sources end.
pub fn ends_of_three() -> [u32; 32]
    ensures { result ≡ ends_for 32 }
{
    let mut ends = [0u32; 32];
    for (k, end) in ends.iter_mut().enumerate() {
        *end = 3 * k as u32 + 3;
    }
    ends
}

// How many sources an accepted net has.
pub fn count_sources(net: Net) -> usize
    requires { Joined net }
    ensures { result ≡ kind_count net 0 }
{
    nets::kind_count(Kind::Source, &net)
}

// The sample run of an accepted net from its fresh state.
fn run_net(net: Net, trace: &mut [u8]) -> Run
    requires { Joined net }
    ensures value { result ≡ sample_run net (length trace.old) }
    ensures trace_after { trace.new ≡ sample_trace net trace.old }
{
    let fresh = sim::step::fresh(net);
    let start = fresh.state;
    let words = one_two_three();
    let ends = ends_of_three();
    let masks = [4294967295u32; 12];
    let k = count_sources(net);
    runs::many::run(net, start, &words, &ends[..k], &masks, trace)
}

// The sample run of a form, each delivery a record in the trace. A form that does not load is refused, and the trace stays as it was.
pub fn run_form(form: &[u8], trace: &mut [u8]) -> Sampled
    ensures { SampledForm form.now trace.old result trace.new }
{
    let loading = forms::load(form);
    if loading.refusal != 0 {
        return Sampled {
            refusal: loading.refusal,
            cycles: 0,
            records: 0,
        };
    }
    let net = loading.net;
    let ran = run_net(net, trace);
    Sampled {
        refusal: ran.refusal,
        cycles: ran.cycles,
        records: ran.records,
    }
}
