//! Which slot is current, case by case.
ghost use Rattle.std.specs.Prelude.{◌≡◌, ◌↔◌, ◌⊎◌, ℕ, List, false, Option, Some, None, Result, Ok, Err};
ghost use Rattle.disk_model.specs.Disk.{Contents};
ghost use Rattle.faults.specs.declared.form_kind.FormKind.TheVariants.{Generations};
ghost use Rattle.manifest_codec.specs.declared.types.Manifest.{Manifest};
ghost use Rattle.manifest_codec.specs.declared.types.ManifestFault.{ManifestFault};
ghost use Rattle.manifest_switch.specs.declared.slot.Slot.{Slot};
ghost use Rattle.manifest_switch.specs.declared.slot.Found.TheVariants.{Blank, At};
ghost use Rattle.manifest_switch.specs.declared.slot.OpenFault.TheVariants.{BadStore};
ghost use Rattle.manifest_switch.specs.Slots.{file_of, other, is_open, open_body, current_of, next_generation, with_closed_gate, IsBlank, HasOnly};

/// Which slot is current, in each case that two slots can be in.
///
/// The cases are those of a store in words: none is open; one is; two are, and the generation of
/// one follows that of the other; two are with one generation; one doesn't decode.
pub fn current_in_words()
    ensures blank { (c : Contents) → (current_of c ≡ Ok Blank) ↔ IsBlank c }
    ensures alone { (s : Slot) (m : Manifest) (c : Contents) → HasOnly s m c → current_of c ≡ Ok (At s m) }
    ensures later { (s : Slot) (m o : Manifest) (c : Contents) → open_body (c (file_of s)) ≡ Some (Ok m)
        → open_body (c (file_of (other s))) ≡ Some (Ok o) → m.generation ≡ next_generation o.generation
        → current_of c ≡ Ok (At s m) }
    ensures equal { (a b : Manifest) (c : Contents) → open_body (c 0) ≡ Some (Ok a) → open_body (c 1) ≡ Some (Ok b)
        → a.generation ≡ b.generation → current_of c ≡ Err (BadStore 1 5 Generations) }
    ensures first_bad { (f : ManifestFault) (c : Contents) → open_body (c 0) ≡ Some (Err f) → current_of c ≡ Err (BadStore 0 f.place f.kind) }
    ensures second_bad { (f : ManifestFault) (c : Contents) → (open_body (c 0) ≡ None)
        ⊎ ((a : Manifest) × (open_body (c 0) ≡ Some (Ok a))) → open_body (c 1) ≡ Some (Err f)
        → current_of c ≡ Err (BadStore 1 f.place f.kind) }
{}

/// What is current stands in its slot, and closing the gate of the other one leaves it alone there.
pub fn current_is_held()
    ensures here { (s : Slot) (m : Manifest) (c : Contents) → current_of c ≡ Ok (At s m) → open_body (c (file_of s)) ≡ Some (Ok m) }
    ensures shut { (file : List ℕ) → is_open (with_closed_gate file) ≡ false }
{}
