//! What holds of the definitions of a replay. Each law is the contract of a function that does nothing.
ghost use Rattle.std.specs.Prelude.{ℕ, ◌≤◌, List};
ghost use Rattle.units.specs.Moment.{IsMoment};
ghost use Rattle.machine.specs.declared.event.Event.{Event};
ghost use Rattle.machine.specs.Reduction.{IsReduction};
ghost use Rattle.script_text.specs.Script.{Commands};
ghost use Rattle.replay_plain.specs.declared.config.ReplayCfg.{ReplayCfg};
ghost use Rattle.replay_plain.specs.State.{ReplayState, first_state};
ghost use Rattle.replay_plain.specs.Reductions.{reduction};
ghost use Rattle.replay_plain.specs.Pieces.{holding_of};
ghost use Rattle.replay_plain.specs.SearchEnds.{RunsLieInSegments, FindsNoneRightly, EndsInTurn};
ghost use Rattle.replay_plain.specs.Commands.{state_after_all};

/// The tries of a reduction where nothing else happens are a reduction.
pub fn law_reductions_end()
    ensures { (events : List Event) (limit now : ℕ) → IsMoment now
        → IsReduction events limit now (reduction limit now events) }
{}

/// A search for pages finds none only where no free run serves, and otherwise goes on until a lock
/// does not find the segment of its pick gone: the bound on its turns never ends it. This needs that
/// the free runs of a client lie in its segments, as they do in each state that commands lead to.
pub fn law_searches_end()
    ensures none { (state : ReplayState) (client n : ℕ) → 1 ≤ n
        → RunsLieInSegments (holding_of state client) → FindsNoneRightly state client n }
    ensures turns { (state : ReplayState) (client n : ℕ) → 1 ≤ n
        → RunsLieInSegments (holding_of state client) → EndsInTurn state client n }
    ensures lawful { (cfg : ReplayCfg) (commands : Commands) (client : ℕ)
        → RunsLieInSegments (holding_of (state_after_all (first_state cfg) commands) client) }
{}
