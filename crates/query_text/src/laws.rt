//! Laws of what is printed.
ghost use Rattle.std.specs.Prelude.{◌≡◌, ◌+◌, ◌<◌, ℕ, true, List, [], Some, Option, length, slice_index_or};
ghost use Rattle.graph_words.specs.declared.types.Born.{Born as ABorn};
ghost use Rattle.graph_words.specs.declared.types.LabelId.{LabelId as ALabel};
ghost use Rattle.closing_machine.specs.State.{EndsCut, place};
ghost use Rattle.closing_machine.specs.Parts.{ArePartitions, all_edges};
ghost use Rattle.disk_model.specs.Disk.{Contents};
ghost use Rattle.open_store.specs.Store.{IsOpenStore, OpenStore};
ghost use Rattle.query_text.specs.Text.{answers_in};
ghost use Rattle.query_text.specs.Answered.{AreListedIn, AreRead};

/// The answers from a vertex stand in the partition that holds it.
pub fn answers_stand_in_their_partition()
    ensures { (ends : List ℕ) (parts : List (List ABorn)) (high : ℕ) (label : ALabel) (u : ℕ) (to : Option ℕ)
        → EndsCut 0 ends high → ArePartitions 0 ends parts
        → answers_in label (Some u) to (all_edges parts)
        ≡ answers_in label (Some u) to (slice_index_or parts (place ends u) []) }
{}

/// The partitions that were read on a disk that tells its contents are those that these list.
pub fn edges_are_those_listed()
    ensures { (s : OpenStore) (c : Contents) (first : ℕ) (read parts : List (List ABorn)) → IsOpenStore s
        → AreRead s true c first read → AreListedIn s c parts → (i : ℕ) → i < length read
        → slice_index_or read i [] ≡ slice_index_or parts (first + i) [] }
{}
