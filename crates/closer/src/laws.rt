//! What the steps of a closing make of a store of two texts.
ghost use Rattle.std.specs.Prelude.{◌≡◌, ℕ, List};
ghost use Rattle.graph_words.specs.declared.types.Born.{Born as ABorn};
ghost use Rattle.disk_model.specs.Disk.{Contents};
ghost use Rattle.manifest_codec.specs.declared.types.Manifest.{Manifest as AManifest};
ghost use Rattle.store_law.specs.Texts.{Texts, normal, rules};
ghost use Rattle.store_law.specs.Listed.{state_in};
ghost use Rattle.store_law.specs.Left.{IsLeft, IsOfTexts, IsStore, IsStoreOf};
ghost use Rattle.open_store.specs.Copy.{IsCopyRead};
ghost use Rattle.open_store.specs.Store.{OpenStore};
ghost use Rattle.closer.specs.Continuation.{AfterSteps, Continues, ImageGoesOn, Retains};

/// A store of two texts is one still after steps of its closing.
pub fn steps_keep_a_store()
    ensures { (t : Texts) (c d : Contents) (k : ℕ) (m next : AManifest) (parts : List (List ABorn))
        → IsStoreOf t c m parts → Continues (normal t) k c m d next → (after : List (List ABorn))
        × IsStoreOf t d next after × AfterSteps (normal t) k (state_in m parts) (state_in next after) }
{}

/// What a stopped closing leaves of a store of two texts is a store of them: the same one, or one that goes on from it.
pub fn stops_leave_a_store()
    ensures kept { (t : Texts) (d c : Contents) (m : AManifest) (parts : List (List ABorn)) → IsStore t d m parts
        → Retains m d c → IsStore t c m parts }
    ensures further { (t : Texts) (seen c : Contents) (m : AManifest) (parts : List (List ABorn))
        → IsStoreOf t seen m parts → ImageGoesOn (normal t) seen m c → IsLeft t c }
{}

/// A store of two texts that is held has the rules that the grammar's text says.
pub fn held_stores_have_the_rules_of_their_texts()
    ensures { (t : Texts) (s : OpenStore) (c : Contents) → IsOfTexts t c s.manifest → IsCopyRead s.manifest (c 2) s.rules → s.rules ≡ rules t }
{}

ghost use Rattle.std.specs.Prelude.{◌<◌, length};
ghost use Rattle.faults.specs.declared.form_kind.FormKind.{FormKind as AKind};
ghost use Rattle.store_law.specs.Listed.{part_file};
ghost use Rattle.open_store.specs.PartRead.{IsRefused};

/// No partition of a store of two texts is refused.
pub fn stores_are_not_refused()
    ensures { (t : Texts) (s : OpenStore) (c : Contents) (parts : List (List ABorn))
        → IsStoreOf t c s.manifest parts → s.rules ≡ rules t → (i place : ℕ) (kind : AKind)
        → i < length s.manifest.parts → IsRefused s i (c (part_file s.manifest i)) place kind → ⊥ }
{}

ghost use Rattle.std.specs.Prelude.{◌≤◌};
ghost use Rattle.normal_law.specs.Closure.{Normal};
ghost use Rattle.closing_machine.specs.State.{State, IsFinished};
ghost use Rattle.closing_machine.specs.Chain.{After, EndsChain};

/// Steps of closing are those of the closing machine, which are determined, for each limit of a partition and budget
/// that the edges at the end don't pass. Where no work is left they are its chain to the end.
pub fn passes_are_steps_of_the_machine()
    ensures steps { (n : Normal) (limit k : ℕ) (s after : State) → AfterSteps n k s after
        → length after.edges ≤ limit → After n limit limit s k after }
    ensures end { (n : Normal) (limit k : ℕ) (s after : State) → AfterSteps n k s after
        → length after.edges ≤ limit → IsFinished after → EndsChain n limit limit s after }
{}
