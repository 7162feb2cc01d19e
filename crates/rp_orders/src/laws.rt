//! What a closed list of orders says of every order.

ghost use Rattle.std.specs.Prelude.{ℕ, ◌↔◌, List};
ghost use Rattle.rp_machine.specs.rp_base.specs.Number.{IsTask};
ghost use Rattle.rp_machine.specs.rp_base.specs.Sets.{Has};
ghost use Rattle.rp_machine.specs.rp_base.specs.declared.action.Action.{Action};
ghost use Rattle.rp_machine.specs.rp_base.specs.declared.reply.Answer.{Answer};
ghost use Rattle.rp_orders.specs.Orders.{AreAmong, AreRight, AreClosed, IsOrderOf, IsReached, IsGiven, IsGuarded, IsStuck, CanBeGiven};
ghost use Rattle.rp_orders.specs.declared.guard.Guard.{Guard};

use rp_machine::Machine;

/// A closed list of orders over some actions has the effect of every order of them, however long
/// and with whatever repeats; one of its orders and one action more give each reply; and wherever
/// a task waits for ever, it does so after one of these orders.
pub fn closed_orders_lead_to_all<M: Machine>()
    // claim: A closed list of orders leads to every state that an order leads to
    ensures states { (program : M.Program) (guards : List Guard) (may : List Action)
        (found : List (List Action))
        → AreRight may → AreClosed M.next M.answers (M.begin program) guards may found
        → (order : List Action) → IsOrderOf M.next M.answers (M.begin program) guards may order
        → IsReached M.next M.answers (M.begin program) guards found order }
    // claim: The replies of every order are those of a closed list and one action more, and no more
    ensures replies { (program : M.Program) (guards : List Guard) (may : List Action)
        (found : List (List Action))
        → AreRight may → AreClosed M.next M.answers (M.begin program) guards may found
        → (answer : Answer) → CanBeGiven M.next M.answers (M.begin program) guards may answer
        ↔ IsGiven M.next M.answers (M.begin program) guards may found answer }
    // claim: A task that waits for ever after an order does so after one of a closed list
    ensures stuck { (program : M.Program) (guards : List Guard) (may : List Action)
        (found : List (List Action))
        → AreRight may → AreClosed M.next M.answers (M.begin program) guards may found
        → (task : ℕ) (order : List Action) → IsTask task
        → IsOrderOf M.next M.answers (M.begin program) guards may order
        → IsStuck M.next M.answers (M.begin program) guards may task order
        → (other : List Action) × Has other found
        × IsStuck M.next M.answers (M.begin program) guards may task other }
    // claim: Actions that may happen are an order of them
    ensures orders { (program : M.Program) (guards : List Guard) (may order : List Action)
        → AreRight may → AreAmong may order
        → IsGuarded M.next M.answers (M.begin program) guards order
        → IsOrderOf M.next M.answers (M.begin program) guards may order }
{
    M::laws();
}
