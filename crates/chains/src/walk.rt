// The walk along a chain of waiting channels: two functions, asking for a missing word and asking for missing readiness, call each other. The channels not yet met fall.
// (One function, given the question, would do; that there are two that call each other may not change.)
ghost use Rattle.std.specs.Prelude.{◌≡◌, true, false, ◌+◌, ◌≤◌, ◌<◌};
ghost use Rattle.chains.specs.Rows.{unmet, next_no, trail_no, Noted, Follows};

use crate::{Seen, Walked};
use asking::{Ending, Next, asked};
use blocks::Sig;

impl Walked {
    // Before the first channel.
    pub const START: Walked = Walked {
        count: 0,
        met: [false; 128],
        channels: [0; 128],
        valid: [false; 128],
    };

    // Channel c is met, and stands next in the chain.
    fn note(&mut self, c: u8, signals: &[Sig; 128])
        requires { (c < 128) × (self.old.count < 128) }
        ensures { Noted c signals.now self.old self.new }
    {
        let at = c as usize;
        self.met[at] = true;
        self.channels[self.count] = c;
        self.valid[self.count] = signals[at].valid;
        self.count += 1;
    }
}

impl<'a> Seen<'a> {
    // What is answered after channel c, which lacks its word (question true) or readiness: its producer is asked, or its consumer.
    fn next(self, question: bool, c: u8) -> Next
        requires { c < self.net.now.channels }
        ensures { result ≡ next_no self.entry question c }
    {
        let at = c as usize;
        let b = if question {
            self.producer[at]
        } else {
            self.consumer[at]
        };
        asked(question, b, self.net, self.state, self.signals, self.ready)
    }
}

// The chain from channel c, which lacks its word: its producer is asked.
#[cycle(ask_ready_ask_word)]
pub fn ask_word(c: u8, seen: Seen, walk: &mut Walked) -> Ending
    requires below { c < seen.net.now.channels }
    requires room { walk.old.count + unmet walk.old.met ≤ 128 }
    ensures { Follows (trail_no seen.entry walk.old.met true c) seen.entry.signals.now walk.old walk.new result }
{
    if walk.met[c as usize] {
        return Ending::Circle(c);
    }
    walk.note(c, seen.signals);
    match seen.next(true, c) {
        Next::Word(n) => ask_word(n, seen, walk),
        Next::Ready(n) => ask_ready(n, seen, walk),
        Next::End(ending) => ending,
    }
}

// The chain from channel c, which has its word and lacks readiness: its consumer is asked.
// stays: the requirement asks for two functions that call each other.
#[cycle(ask_ready_ask_word)]
pub fn ask_ready(c: u8, seen: Seen, walk: &mut Walked) -> Ending
    requires below { c < seen.net.now.channels }
    requires room { walk.old.count + unmet walk.old.met ≤ 128 }
    ensures { Follows (trail_no seen.entry walk.old.met false c) seen.entry.signals.now walk.old walk.new result }
{
    if walk.met[c as usize] {
        return Ending::Circle(c);
    }
    walk.note(c, seen.signals);
    match seen.next(false, c) {
        Next::Word(n) => ask_word(n, seen, walk),
        Next::Ready(n) => ask_ready(n, seen, walk),
        Next::End(ending) => ending,
    }
}
