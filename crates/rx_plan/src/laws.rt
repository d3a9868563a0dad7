//! The laws of plans: whatever a plan makes is a history of legal nodes, a world where nothing is invented, and has the
//! promises of such.
ghost use Rattle.std.specs.Prelude.{◌≡◌, ◌⊎◌, [], List, reverse};
ghost use Rattle.std.specs.List.{All};
ghost use Rattle.rx_model.specs.declared.event.Noted.{Noted};
ghost use Rattle.rx_jobs.specs.Handlers.{Handlers};
ghost use Rattle.rx_law.specs.Promises.{ServerForgotNone};
ghost use Rattle.rx_law.specs.Times.{Timely};
ghost use Rattle.rx_law.specs.Worlds.{Carried, Sides, World};
ghost use Rattle.rx_script.specs.declared.plan.Numbered.{Numbered};
ghost use Rattle.rx_plan.specs.Answering.{AbortedAsServed, AreDriven, AreServable, EndedAsServed, EndedByLaw};
ghost use Rattle.rx_plan.specs.Answering.{OkAsAnswered};
ghost use Rattle.rx_plan.specs.Follows.{Went, Whole, plan_goes};
ghost use Rattle.rx_plan.specs.Lines.{IsWell};
ghost use Rattle.rx_plan.specs.Promises.{AreDistinct, AreUnforged, AreInRange, Promises, plan_nodes};
ghost use Rattle.rx_plan.specs.Stages.{Stage};

/// Once a plan made an event, each node that its first lines make has a legal side, whatever bytes its lines invent and
/// whatever names its clients share. Where all its lines were made, it has those nodes, also if there was no event.
pub fn plans_are_legal()
    ensures made { (g : Handlers) (lines : List Numbered) (es : List Noted) (went : Went)
        → AreInRange lines → plan_goes g lines es went → (es ≡ []) ⊎ Sides (plan_nodes lines) (reverse es) }
    ensures whole { (g : Handlers) (lines : List Numbered) (es : List Noted) (s : Stage)
        → AreInRange lines → plan_goes g lines es (Whole s)
        → (s.nodes ≡ plan_nodes lines) × Sides (plan_nodes lines) (reverse es) }
{}

/// Where a plan has no forge line, each datagram that a node takes had been given to its host by its sender. Where no
/// two of its clients share host and epoch either, its nodes and events are a world.
pub fn plans_are_worlds()
    ensures carried { (g : Handlers) (lines : List Numbered) (es : List Noted) (went : Went)
        → AreInRange lines → AreUnforged lines → plan_goes g lines es went → Carried (plan_nodes lines) (reverse es) }
    ensures world { (g : Handlers) (lines : List Numbered) (es : List Noted) (went : Went)
        → AreInRange lines → AreUnforged lines → AreDistinct (plan_nodes lines) → plan_goes g lines es went
        → (es ≡ []) ⊎ World (plan_nodes lines) (reverse es) }
{}

/// What a plan makes keeps its promises at every moment: where no record was forgotten, no call enters its handler
/// twice, whatever bytes came. Where nothing was invented and no two clients share a name, and no record was forgotten
/// or no datagram is old: each call enters its handler at most once, what each side read begins what the other said,
/// and a client's call that ended has what its end says. A server with a key accepts only calls of clients that showed
/// it.
pub fn plans_keep_promises()
    ensures { (g : Handlers) (lines : List Numbered) (es : List Noted) (went : Went)
        → AreInRange lines → plan_goes g lines es went → Promises lines es }
{}

/// Of a driven plan, which makes no call of a client or of a handler by hand, no two of whose clients share host and
/// epoch, and where no record was forgotten or no datagram is old. Each caller is that of an invoke. Where the invoke
/// and the script agree on the streams that are there, its `ok` line has the values that the script answers for its
/// arguments and upload, and the script's download where one was asked for. Whether they agree or not, a handler of its
/// call ends with what is served for its request: the code, or 0 behind all of the reply. An end other than ok is that
/// of its call: the server gave an ABORT with the code, nothing was heard for so long, or it was cancelled; or the
/// caller gave up a reply that passed its limit. Where it ended with an ABORT its line says the code, which is what is
/// served for its request; or RX_CALL_DEAD, and a poll of the server came when nothing had been heard of the call for
/// 12 seconds; or RX_PROTOCOL_ERROR, and the lines of its client and of the server have different keys; or
/// RX_INVALID_OPERATION, and one of the two lines has a key and the other has none.
pub fn plans_answer_as_served()
    ensures ok { (g : Handlers) (lines : List Numbered) (es : List Noted) (s : Stage)
        → AreServable g → All (λ l. IsWell g l.what) lines → AreDriven lines → AreDistinct (plan_nodes lines)
        → plan_goes g lines es (Whole s)
        → ServerForgotNone (plan_nodes lines) (reverse es) ⊎ Timely (plan_nodes lines) (reverse es)
        → OkAsAnswered g lines s }
    ensures ended { (g : Handlers) (lines : List Numbered) (es : List Noted) (s : Stage)
        → All (λ l. IsWell g l.what) lines → AreDriven lines → AreDistinct (plan_nodes lines)
        → plan_goes g lines es (Whole s)
        → ServerForgotNone (plan_nodes lines) (reverse es) ⊎ Timely (plan_nodes lines) (reverse es)
        → EndedAsServed g lines (plan_nodes lines) (reverse es) s }
    ensures caused { (g : Handlers) (lines : List Numbered) (es : List Noted) (s : Stage)
        → All (λ l. IsWell g l.what) lines → AreDriven lines → AreDistinct (plan_nodes lines)
        → plan_goes g lines es (Whole s)
        → ServerForgotNone (plan_nodes lines) (reverse es) ⊎ Timely (plan_nodes lines) (reverse es)
        → EndedByLaw (plan_nodes lines) (reverse es) s }
    ensures aborted { (g : Handlers) (lines : List Numbered) (es : List Noted) (s : Stage)
        → All (λ l. IsWell g l.what) lines → AreDriven lines → AreDistinct (plan_nodes lines)
        → plan_goes g lines es (Whole s)
        → ServerForgotNone (plan_nodes lines) (reverse es) ⊎ Timely (plan_nodes lines) (reverse es)
        → AbortedAsServed g lines (plan_nodes lines) (reverse es) s }
{}
