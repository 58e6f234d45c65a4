//! Each order that the program can write has an answer that an entry can hold.
//!
//! An answer may be longer than its order. Where it were longer than an entry may be, its workstation would answer, decide
//! and send nothing more. The laws of rest exclude that by a premise on orders; these say that each order of a line that
//! was read meets it, and each that a node advises itself.
#![tactic(auto)]

ghost use Rattle.std.specs.Prelude.{◌≡◌, ℕ, IsTrue, Some};
ghost use Rattle.model.specs.History.{View};
ghost use Rattle.model.specs.Types.{Cmd, Net, Typed};
ghost use Rattle.conman_syntax.specs.Fit.{IsFitLine};
ghost use Rattle.conman_syntax.specs.declared.lines.Line.{Line};
ghost use Rattle.conman_orders.specs.Orders.{IsOrder};
ghost use Rattle.recovery_watch.specs.Advice.{advice};
ghost use Rattle.rest_laws.specs.Short.{gives_short};

/// The order of a line that was read has a short answer, in whatever view it is read.
pub fn typed_orders_have_short_answers()
    ensures { (net : Net) (V : View) (me most : ℕ) (typed : Line) (to : ℕ) (c : Cmd) → IsFitLine most typed
        → IsOrder net V me typed to c → IsTrue (gives_short (Typed to c)) }
{}

/// What a node advises itself has a short answer.
pub fn advised_orders_have_short_answers()
    ensures { (V : View) (w : ℕ) (c : Cmd) → advice V w ≡ Some c → IsTrue (gives_short (Typed w c)) }
{}
