//! What runs in a row leave.
ghost use Rattle.std.specs.Prelude.{◌≡◌, ℕ, IsTrue, List, Option, Some};
ghost use Rattle.disk_model.specs.Disk.{Contents};
ghost use Rattle.store_law.specs.Left.{IsLeft};
ghost use Rattle.store_law.specs.Listed.{AreExact};
ghost use Rattle.store.specs.Import.{texts_of};
ghost use Rattle.graspan_top.specs.Runs.{IsInARow, Ran};
ghost use Rattle.graspan_top.specs.declared.status.Status.TheVariants.{Done};

use disk_model::Disk;

/// However many runs of the same files were stopped or ended otherwise, and whenever: what a crash may leave at any
/// moment is what stopped runs leave, and where one of them is Done its disk lists exactly the closure.
pub fn runs_in_a_row<D: Disk>()
    ensures left { (told : List ℕ → Option (List ℕ)) (edges grammar g e : List ℕ) → told grammar ≡ Some g
        → told edges ≡ Some e → (r : Ran D) → IsInARow D.Disk told edges grammar r → (c : Contents)
        → D.left_since r.new (D.moment r.old) c → IsLeft (texts_of g e) c }
    ensures exact { (told : List ℕ → Option (List ℕ)) (edges grammar g e : List ℕ) → told grammar ≡ Some g
        → told edges ≡ Some e → (r : Ran D) → IsInARow D.Disk told edges grammar r → r.status ≡ Done → IsTrue D.tells
        → AreExact (texts_of g e) (D.seen r.new) × ((c : Contents) → D.may_leave r.new c → AreExact (texts_of g e) c) }
{}
