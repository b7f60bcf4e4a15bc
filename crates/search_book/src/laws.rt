//! What follows from the definitions alone: functions without a body that computes, whose contracts are the laws.
ghost use Rattle.std.specs.Prelude.{ℕ, ◌≡◌, ◌≤◌, ◌+◌, ◌*◌, Bool, List, length};
ghost use Rattle.tqd_instance.specs.declared.job.Job.{Job};
ghost use Rattle.interval_box.specs.declared.boxes.IntervalBox.{IntervalBox};
ghost use Rattle.interval_box.specs.Ranges.{IsRoot};
ghost use Rattle.interval_box.specs.Size.{size};
ghost use Rattle.search_book.specs.BookState.{BookState, IsOpening};
ghost use Rattle.search_book.specs.Events.{Event, Happens, Steps};
ghost use Rattle.search_book.specs.Later.{IsLater};
ghost use Rattle.search_book.specs.Covered.{IsCovered, AllRemain};
ghost use Rattle.search_book.specs.Runs.{IsRunOf, Leads, Runs, closings, splittings};
ghost use Rattle.search_book.specs.Counts.{closed_count, split_count, due_size, DueAfter};
ghost use Rattle.search_book.specs.Answers.{IsSettled, NoneOpen, Decides};
ghost use Rattle.search_book.specs.Taken.{NoneTaken, TakenAfter};

/// Every state is later than itself.
pub fn later_is_reflexive()
    ensures { (s : BookState) → IsLater s s }
{}

/// A state that is later than a later one is later.
pub fn later_is_transitive()
    ensures { (s t u : BookState) → IsLater s t → IsLater t u → IsLater s u }
{}

/// An event leads to a later state, whether it applies or not.
pub fn events_lead_later()
    ensures { (s t : BookState) (event : Event) (applied : Bool) → Steps s event applied t → IsLater s t }
{}

/// An event that comes to a state applies or not, and leads to one state.
pub fn events_lead_to_one_state()
    ensures { (s t u : BookState) (event : Event) (applied also : Bool)
        → Steps s event applied t → Steps s event also u → (applied ≡ also) × (t ≡ u) }
{}

/// The opening state of a job is covered, and an event that applies to a covered state leads to a covered one.
pub fn events_keep_the_cover()
    ensures opening { (job : Job) (s : BookState) → IsOpening job s → IsCovered s }
    ensures event { (s t : BookState) (event : Event) → IsCovered s → Happens s event t → IsCovered t }
{}

/// Whatever events come to the opening state, the state that they lead to is covered: each feasible purchase lies in the
/// box of a node that is Open or Taken, or there is a best plan and the purchase costs no less.
pub fn every_run_is_covered()
    ensures covered { (job : Job) (s t : BookState) (events : List (Event × Bool))
        → IsOpening job s → Runs s events t → IsCovered t }
    ensures remain { (job : Job) (s t : BookState) (events : List (Event × Bool))
        → IsOpening job s → Runs s events t → AllRemain t }
{}

/// Whatever events come, a node that was split or closed stays so. From the opening state on, as many nodes are closed
/// as events closed one, and as many are split as events split one.
pub fn nodes_are_settled_once()
    ensures later { (s t : BookState) (events : List (Event × Bool)) → Runs s events t → IsLater s t }
    ensures closed { (job : Job) (s t : BookState) (events : List (Event × Bool))
        → IsOpening job s → Runs s events t → closings events ≡ closed_count t }
    ensures split { (job : Job) (s t : BookState) (events : List (Event × Bool))
        → IsOpening job s → Runs s events t → splittings events ≡ split_count t }
{}

/// From each state each list of events has one run: it is settled of each event whether it applies when it comes, so there
/// is one list of marks, and one state that the list leads to.
pub fn every_list_of_events_has_one_run()
    ensures some { (s : BookState) (events : List Event)
        → (marks : List (Event × Bool)) × (t : BookState) × IsRunOf s events marks t }
    ensures one { (s t u : BookState) (events : List Event) (a b : List (Event × Bool))
        → IsRunOf s events a t → IsRunOf s events b u → (a ≡ b) × (t ≡ u) }
{}

/// Whichever events come to the opening state, from whichever workers, in whichever order, and whether they apply or not:
/// they lead to one state, which is covered and has at most 2 * P - 1 nodes, where P is the size of the root. From every
/// state they lead to one that is later.
pub fn every_list_of_events_keeps_the_cover()
    ensures leads { (s : BookState) (events : List Event) → (t : BookState) × Leads s events t }
    ensures to_one { (s t u : BookState) (events : List Event) → Leads s events t → Leads s events u → t ≡ u }
    ensures covered { (job : Job) (s t : BookState) (events : List Event)
        → IsOpening job s → Leads s events t → IsCovered t }
    ensures remain { (job : Job) (s t : BookState) (events : List Event)
        → IsOpening job s → Leads s events t → AllRemain t }
    ensures later { (s t : BookState) (events : List Event) → Leads s events t → IsLater s t }
    ensures bounded { (job : Job) (root : IntervalBox) (s t : BookState) (events : List Event)
        → IsRoot job root → IsOpening job s → Leads s events t → length t.nodes + 1 ≤ 2 * size job root }
{}

/// Whatever events come to the opening state, there are at most 2 * P - 1 nodes, where P is the size of the root.
pub fn nodes_are_bounded()
    ensures { (job : Job) (root : IntervalBox) (s t : BookState) (events : List (Event × Bool))
        → IsRoot job root → IsOpening job s → Runs s events t → length t.nodes + 1 ≤ 2 * size job root }
{}

/// The size that is due falls by 1 where a node of a covered state is split, falls where one is closed, and stays at
/// every other event.
pub fn due_size_falls()
    ensures { (s t : BookState) (event : Event)
        → IsCovered s → Happens s event t → DueAfter event (due_size s) (due_size t) }
{}

/// An event that applies takes a node, leaves one, puts a half in the place of one, or leaves none Taken; all others are
/// Taken as they were.
pub fn events_take_nodes()
    ensures { (s t : BookState) (event : Event) → Happens s event t → TakenAfter event s t }
{}

/// A state in which no node is Open and none is Taken is settled.
pub fn states_settle_where_none_waits()
    ensures { (s : BookState) → NoneOpen s → NoneTaken s → IsSettled s }
{}

/// A covered state without a node that is Open or Taken decides: its best plan is a least purchase, and where there is
/// none, no purchase is feasible.
pub fn settled_states_decide()
    ensures { (s : BookState) → IsCovered s → IsSettled s → Decides s }
{}
