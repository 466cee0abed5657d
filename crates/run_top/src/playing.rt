ghost use Rattle.std.specs.Prelude.{◌≡◌};
ghost use Rattle.run_top.specs.Playing.{refusal};

use fault_script::{LimitName, Line, LineFault, LineWords, read_words, split_line};
use ft_base::{Bytes, NoMemory, Steps};
use ft_world::act;
use script_pieces::{Actor, LineResult};
use script_world::World;
use std::alloc::Global;
use std::marker::Model;
use std::sync::ledger::Ledger;

/// A world that acts the lines of a script.
#[derive(Drop)]
pub struct Script {
    world: World,
}

impl Model for Script {
    ghost use Rattle.script_world.specs.World.{World};

    ghost Value = { World };

    ghost view = { λ s. s.world };
}

fn refusal(why: LineFault) -> LineResult<LineFault>
    ensures { result ≡ refusal why }
{
    match why {
        LineFault::NoMemory => LineResult::NoMemory,
        LineFault::Syntax | LineFault::Unknown | LineFault::Again | LineFault::Limit(_) => {
            LineResult::Stops(why)
        }
    }
}

impl Script {
    ghost use Rattle.std.specs.Prelude.{◌≡◌, ℕ, ◌+◌, ◌≤◌, IfOk};
    ghost use Rattle.ft_world.specs.Acts.{act};
    ghost use Rattle.script_world.specs.World.{empty};
    ghost use Rattle.script_world.specs.Sound.{HasActed, IsKeptWorld};
    ghost use Rattle.script_pieces.specs.Feeds.{IfGoes, IsActed};
    ghost use Rattle.script_pieces.specs.Runs.{script_limit};
    ghost use Rattle.fault_script.specs.Forms.{as_some, form_of};
    ghost use Rattle.fault_script.specs.Words.{texts};
    ghost use Rattle.run_top.specs.Playing.{MayAct, effect_of, printed_effect};

    /// A script of which no line was acted yet.
    pub fn new(alloc: Global) -> Result<Script, NoMemory>
        ensures { IfOk result (λ script. script ≡ empty) }
    {
        let world = World::new(alloc)?;
        Ok(Script { world })
    }

    /// The world that the lines made so far.
    pub(crate) fn world(&self) -> &World
        ensures { result.now ≡ self.now }
    {
        &self.world
    }

    // Acts a line that was read.
    fn play<L: Ledger>(&mut self, line: &mut Line, steps: &mut Steps<L>) -> LineResult<LineFault>
        requires { (number : ℕ) × (number ≤ script_limit + 1) × MayAct self.old number }
        ensures acted { IsActed (printed_effect (act self.old line.old)) self.new steps.old steps.new result }
        ensures next { (number : ℕ) → MayAct self.old number → IfGoes result (MayAct self.new (number + 1)) }
    {
        let report = match act(&mut self.world, line, steps) {
            Ok(report) => report,
            Err(why) => return refusal(why),
        };
        LineResult::Goes(report.into_bytes())
    }

    // Acts the line of some words, where it was read: a line is large, and is never moved.
    fn play_words<L: Ledger>(
        &mut self,
        alloc: Global,
        words: &[&[u8]],
        steps: &mut Steps<L>,
    ) -> LineResult<LineFault>
        requires { (number : ℕ) × (number ≤ script_limit + 1) × MayAct self.old number }
        ensures acted { IsActed (effect_of self.old (as_some (form_of (texts words.now)))) self.new steps.old steps.new result }
        ensures next { (number : ℕ) → MayAct self.old number → IfGoes result (MayAct self.new (number + 1)) }
    {
        let mut line = Line::Hosts(0);
        match read_words(alloc, words, &mut line) {
            Ok(()) => self.play(&mut line, steps),
            Err(why) => refusal(why),
        }
    }
}

impl Actor for Script {
    ghost use Rattle.run_top.specs.Playing.{MayAct, rules};
    ghost use Rattle.run_top.specs.PlayingLaws.{alike};

    type Fault = LineFault;

    ghost rules = { rules };

    ghost may_act = { MayAct };

    fn act<L: Ledger>(
        &mut self,
        alloc: Global,
        text: &[u8],
        steps: &mut Steps<L>,
    ) -> LineResult<LineFault> {
        let mut words = LineWords::new(alloc);
        match split_line(text, &mut words) {
            Ok(true) => self.play_words(alloc, words.as_slice(), steps),
            Ok(false) => LineResult::Goes(Bytes::from_vec(Vec::new(alloc))),
            Err(why) => refusal(why),
        }
    }

    fn past(&self) -> LineFault {
        LineFault::Limit(LimitName::Script)
    }

    ghost alike = { alike };
}
