//! The laws of plans and scripts that were read.
ghost use Rattle.std.specs.Prelude.{◌≡◌, ℕ, List, Ok};
ghost use Rattle.std.specs.List.{All};
ghost use Rattle.xdr_value.specs.Data.{Procs, Types};
ghost use Rattle.rx_jobs.specs.Handlers.{Handlers};
ghost use Rattle.rx_script.specs.Plans.{plan_of};
ghost use Rattle.rx_script.specs.Saying.{Answering, plan_rows};
ghost use Rattle.rx_script.specs.Scripts.{script_of};
ghost use Rattle.rx_script.specs.declared.plan.Numbered.{Numbered};
ghost use Rattle.rx_plan.specs.Answering.{AnswersNoZero, WaitsShort};
ghost use Rattle.rx_plan.specs.Lines.{IsWell};

/// In a plan that was read all numbers are in range, and the arguments of each invoke fit: it can be run.
pub fn plans_are_well()
    ensures { (g : Handlers) (text : List ℕ) (lines : List Numbered)
        → plan_of g.types g.procs text ≡ Ok (plan_rows lines) → All (λ n. IsWell g n.what) lines }
{}

/// In a script that was read no line answers a code 0.
pub fn scripts_answer_no_zero()
    ensures { (types : Types) (procs : Procs) (text : List ℕ) (script : List Answering)
        → script_of types procs text ≡ Ok script
        → All (λ (b : Answering). All AnswersNoZero b.lines) script }
{}

/// Handlers that go by a script that was read wait no longer for any request than a script may say.
pub fn scripts_wait_shortly()
    ensures { (g : Handlers) (text : List ℕ) → script_of g.types g.procs text ≡ Ok g.script → WaitsShort g }
{}
