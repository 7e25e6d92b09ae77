ghost use Rattle.std.specs.Prelude.{◌≡◌};

use counter_cells::CellNaming;
use descriptor_tree::Config;
use http_endpoint::Checks;
use rate_limiter::{Limiter, Pass};
use rate_types::{OutOfMemory, Request, Seconds, Word};
use rls_core::{CheckFault, ReloadFault, Reply};
use std::alloc::Global;
use std::marker::Model;
use std::sync::{Arc, Wait};

/// A pass of a limiter, with the limiter. Contracts see it as a `Checker`.
#[derive(Drop)]
pub struct PassChecks<'a, N: CellNaming> {
    limiter: &'a Limiter<N>,
    pass: Pass<N>,
}

impl<'a, N: CellNaming> Model for PassChecks<'a, N> {
    ghost use Rattle.std.specs.Prelude.{◌≡◌};
    ghost use Rattle.std.specs.Coded.{codes};
    ghost use Rattle.rule_lookup.specs.Stored.{trees_code};
    ghost use Rattle.http_checks.specs.Checker.{Checker};

    ghost Value = { Checker };

    ghost coded = { Prim.hlevel (codes, trees_code) };

    ghost view = { λ c. record { limiter = c.limiter.now; pass = c.pass } };

    ghost invariant = { λ c. c.pass.limiter ≡ c.limiter.now.id };
}

impl<'a, N: CellNaming> PassChecks<'a, N> {
    ghost use Rattle.std.specs.Arc.{arc_value};
    ghost use Rattle.descriptor_tree.specs.Views.{config_view};
    ghost use Rattle.http_checks.specs.Deeds.{ReloadsBy};

    /// The pass goes with the limiter.
    pub fn new(limiter: &'a Limiter<N>, pass: Pass<N>) -> PassChecks<'a, N>
        requires { pass.limiter ≡ limiter.now.id }
        ensures { result ≡ record { limiter = limiter.now; pass = pass } }
    {
        PassChecks { limiter, pass }
    }

    /// Puts a configuration in force as the newest version, for all passes of the limiter, and brings this one to it. The answer is its
    /// number. The others come to it with their next checks. It may wait for other calls on the limiter.
    pub fn reload<R: Wait>(
        &mut self,
        rt: &R,
        alloc: Global,
        config: Arc<Config>,
    ) -> Result<u32, ReloadFault>
        ensures { ReloadsBy (config_view (arc_value config)) result self.old self.new }
    {
        self.limiter.reload(rt, alloc, &mut self.pass, config)
    }

    /// The pass.
    pub fn into_pass(self) -> Pass<N>
        ensures pass { result ≡ self.entry.pass }
        ensures limiter { result.limiter ≡ self.entry.limiter.id }
    {
        self.pass
    }
}

impl<'a, N: CellNaming> Checks for PassChecks<'a, N> {
    ghost use Rattle.http_checks.specs.Checker.{AnswersBy};

    ghost answers = { AnswersBy N.setup.cells };

    fn check<R: Wait>(
        &mut self,
        rt: &R,
        alloc: Global,
        request: &Request,
        now: Seconds,
    ) -> Result<Reply, CheckFault> {
        self.limiter.check(rt, alloc, &mut self.pass, request, now)
    }

    fn stats(&mut self, _alloc: Global) -> Result<Option<Word>, OutOfMemory> {
        Ok(None)
    }
}
