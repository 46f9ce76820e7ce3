//! What the contents of a disk list, when they list exactly the closure of two texts, and what stopped runs may leave.
#![tactic(auto)]

ghost use Rattle.std.specs.Prelude.{◌≡◌, ◌≢◌, ◌≤◌, ◌↔◌, ◌∷◌, [], List, ℕ, Ok, None, Contains, codes};
ghost use Rattle.edge_text.specs.EdgesText.{edges_fault};
ghost use Rattle.graph_words.specs.declared.types.Born.{Born as ABorn};
ghost use Rattle.closing_machine.specs.State.{EndsCut};
ghost use Rattle.closing_machine.specs.Parts.{ArePartitions, all_edges};
ghost use Rattle.disk_model.specs.Disk.{Contents};
ghost use Rattle.disk_model.specs.View.{LeavesBy, OnlyLooks};
ghost use Rattle.manifest_codec.specs.declared.types.Manifest.{Manifest as AManifest};
ghost use Rattle.manifest_codec.specs.Spelling.{FitsManifest};
ghost use Rattle.manifest_switch.specs.declared.slot.Slot.{Slot as ASlot};
ghost use Rattle.manifest_switch.specs.declared.slot.Slot.TheVariants.{Zero};
ghost use Rattle.manifest_switch.specs.declared.slot.Found.TheVariants.{At};
ghost use Rattle.manifest_switch.specs.Slots.{IsBlank, current_of};
ghost use Rattle.manifest_switch.specs.Steps.{IsMade, Keeps, Stays, Switches};
ghost use Rattle.store_law.specs.Texts.{AreGoodInTurn, Texts, joined_text};
ghost use Rattle.store_law.specs.Listed.{AreExact, AreListed, ends_of};
ghost use Rattle.store_law.specs.Left.{HasNoWork, IsLeft, IsOfTexts, IsStore, IsStoreOf};
ghost use Rattle.store_law.specs.Kept.{KeepsAmong, KeepsStores};
ghost use Rattle.store_law.specs.Imported.{IsFreshStore, IsImported};
ghost use Rattle.disk_model.specs.OneFile.{OnlyFile};
ghost use Rattle.store_law.specs.Steps.{IsFree, KeepsCopies, KeepsFiles};

use disk_model::Disk;

/// The partitions that a manifest lists are partitions of its intervals, which cut the vertices.
pub fn listed_are_partitions()
    ensures cut { (m : AManifest) → FitsManifest m → EndsCut 0 (ends_of m) m.vertices }
    ensures parts { (c : Contents) (m : AManifest) (fresh : ℕ) (parts : List (List ABorn))
        → AreListed c m fresh parts → ArePartitions 0 (ends_of m) parts }
{}

/// A store of two texts that has no work left lists exactly their closure, each edge once.
pub fn finished_stores_are_exact()
    ensures { (t : Texts) (c : Contents) (m : AManifest) (parts : List (List ABorn)) → IsStore t c m parts → HasNoWork m → AreExact t c }
{}

/// A store of two texts is what a stopped run may leave.
pub fn stores_are_left()
    ensures { (t : Texts) (c : Contents) (m : AManifest) (parts : List (List ABorn)) → IsStore t c m parts → IsLeft t c }
{}

/// A fresh store is a store, and what is one with its manifest becomes it by a switch to slot 0.
pub fn imported_is_a_store()
    ensures rest { (t : Texts) (limit : ℕ) (c : Contents) (m : AManifest) (parts : List (List ABorn))
        → IsFreshStore t limit c m parts → IsStoreOf t c m parts }
    ensures beside { (t : Texts) (limit : ℕ) (seen c : Contents) (m : AManifest) (parts : List (List ABorn))
        → IsFreshStore t limit seen m parts → ((f : ℕ) → f ≢ 0 → f ≢ 1 → c f ≡ seen f) → IsFreshStore t limit c m parts }
    ensures switched { (t : Texts) (seen c : Contents) (m : AManifest) (parts : List (List ABorn)) (limit : ℕ)
        → IsFreshStore t limit seen m parts → current_of c ≡ Ok (At Zero m) → ((f : ℕ) → f ≢ 0 → f ≢ 1 → c f ≡ seen f)
        → IsImported t limit c m parts }
    ensures store { (t : Texts) (limit : ℕ) (c : Contents) (m : AManifest) (parts : List (List ABorn))
        → IsImported t limit c m parts → IsStore t c m parts }
{}

/// The texts and the limit determine the intervals of a fresh store and what its partitions list.
pub fn fresh_stores_are_alike()
    ensures { (t : Texts) (limit : ℕ) (c d : Contents) (m n : AManifest) (xs ys : List (List ABorn))
        → IsFreshStore t limit c m xs → IsFreshStore t limit d n ys → (ends_of m ≡ ends_of n) × (xs ≡ ys) }
{}

/// The files that a manifest names list one choice of partitions at most.
pub fn bytes_tell_what_is_listed()
    ensures { (c : Contents) (m : AManifest) (fresh : ℕ) (xs ys : List (List ABorn)) → FitsManifest m
        → AreListed c m fresh xs → AreListed c m fresh ys → xs ≡ ys }
{}

/// A switch, and the closing of a slot beside the current one, leave a store of the texts where one was.
///
/// What a crash leaves of a store is the same store where what is current stays. Where the next
/// manifest is current it is a store by that one, if what a read gave is one with it.
pub fn a_switch_leaves_a_store()
    ensures kept { (t : Texts) (d c : Contents) (m : AManifest) (parts : List (List ABorn)) → Stays d c → IsStore t d m parts → IsStore t c m parts }
    ensures closed { (t : Texts) (s : ASlot) (d c : Contents) → Keeps s d c → IsLeft t d → IsLeft t c }
    ensures stays { (t : Texts) (d c : Contents) → Stays d c → IsLeft t d → IsLeft t c }
    ensures made { (t : Texts) (seen c : Contents) (m : AManifest) (parts : List (List ABorn))
        → IsStoreOf t seen m parts → IsMade seen m c → IsStore t c m parts }
    ensures step { (t : Texts) (d seen c : Contents) (m : AManifest) (parts : List (List ABorn)) → IsLeft t d
        → IsStoreOf t seen m parts → Switches seen m d c → IsLeft t c }
{}

/// Texts without a fault, each counted behind those before it, are a joined text without one, and the other way round.
pub fn joined_texts_are_good_in_turn()
    ensures { (names : List (List ℕ)) (files : List (List ℕ)) → AreGoodInTurn names files ↔ (edges_fault 0 names (joined_text files) ≡ None) }
{}

/// A next text that isn't empty begins a line of its own, and an empty one changes nothing.
pub fn next_texts_begin_a_line()
    ensures first_empty { joined_text (codes "" ∷ codes "0 1 a" ∷ []) ≡ codes "0 1 a" }
    ensures next_empty { joined_text (codes "0 1 a" ∷ codes "" ∷ []) ≡ codes "0 1 a" }
    ensures ended { joined_text (codes "0 1 a\n" ∷ codes "1 2 b" ∷ []) ≡ codes "0 1 a\n1 2 b" }
    ensures not_ended { joined_text (codes "0 1 a" ∷ codes "1 2 b\n" ∷ []) ≡ codes "0 1 a\n1 2 b\n" }
    ensures lone_return { joined_text (codes "0 1 a\r" ∷ codes "1 2 b" ∷ []) ≡ codes "0 1 a\r\n1 2 b" }
{}

/// Contents whose copies, as far as the manifest says, and whose partition files are as they were are the same store.
pub fn kept_files_keep_a_store()
    ensures texts { (t : Texts) (d c : Contents) (m : AManifest) → KeepsCopies m d c → IsOfTexts t d m → IsOfTexts t c m }
    ensures listed { (d c : Contents) (m : AManifest) (fresh : ℕ) (parts : List (List ABorn)) → KeepsFiles m d c
        → AreListed d m fresh parts → AreListed c m fresh parts }
    ensures rest { (t : Texts) (d c : Contents) (m : AManifest) (parts : List (List ABorn)) → KeepsFiles m d c
        → IsStoreOf t d m parts → IsStoreOf t c m parts }
    ensures store { (t : Texts) (d c : Contents) (m : AManifest) (parts : List (List ABorn))
        → current_of c ≡ current_of d → KeepsFiles m d c → IsStore t d m parts → IsStore t c m parts }
{}

/// A file that the current manifest doesn't name may change, and any but a slot where no slot is open.
pub fn other_files_may_change()
    ensures store { (t : Texts) (d c : Contents) (m : AManifest) (parts : List (List ABorn)) (f : ℕ) → IsFree m f
        → OnlyFile f d c → IsStore t d m parts → IsStore t c m parts }
    ensures rest { (t : Texts) (d c : Contents) (m : AManifest) (parts : List (List ABorn)) (f : ℕ) → IsFree m f
        → OnlyFile f d c → IsStoreOf t d m parts → IsStoreOf t c m parts }
    ensures current { (d c : Contents) (f : ℕ) → 2 ≤ f → OnlyFile f d c → current_of c ≡ current_of d }
    ensures blank { (d c : Contents) (f : ℕ) → 2 ≤ f → OnlyFile f d c → IsBlank d → IsBlank c }
    ensures left { (t : Texts) (d c : Contents) (f : ℕ) → 2 ≤ f
        → ((s : ASlot) (m : AManifest) → current_of d ≡ Ok (At s m) → IsFree m f) → OnlyFile f d c → IsLeft t d
        → IsLeft t c }
{}

/// Calls that only look keep stores, and so do those that leave what is current with all files but the slots, a switch
/// to a manifest that is a store of the same texts, and calls one after the other.
pub fn calls_keep_stores<D: Disk>()
    ensures looks { (old new : D) → OnlyLooks D.Disk old new → KeepsStores D.Disk old new }
    ensures stays { (old new : D) → LeavesBy D.Disk old new Stays → KeepsStores D.Disk old new }
    ensures switch { (old new : D) (t : Texts) (m : AManifest) (parts : List (List ABorn))
        → IsStoreOf t (D.seen old) m parts → LeavesBy D.Disk old new (Switches (D.seen old) m)
        → KeepsAmong D.Disk old new t (Contains (all_edges parts)) }
    ensures and_then { (old mid new : D) → KeepsStores D.Disk old mid → KeepsStores D.Disk mid new → KeepsStores D.Disk old new }
{}
