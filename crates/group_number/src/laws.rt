ghost use Rattle.std.specs.Prelude.{◌≡◌, ◌+◌, ◌-◌, ◌^◌, ◌<◌, ◌≤◌, ◌++◌, true, false, ℕ, List, length, take};
ghost use Rattle.group_number.specs.declared.reading.NumberRead.TheVariants.{Number};
ghost use Rattle.group_number.specs.Groups.{IsBytes, IsGroupNumber, group_at, group_bytes, is_whole_group};

/// What is read is the spelling of a number below 2^64, and the spelling of such a number is read, whatever follows it.
pub fn reading_is_spelling()
    ensures again { (n : ℕ) (rest : List ℕ) → n < 2 ^ 64
        → group_at (group_bytes n ++ rest) ≡ Number n (length (group_bytes n)) }
    ensures takes { (bytes : List ℕ) (n len : ℕ) → IsBytes bytes → group_at bytes ≡ Number n len
        → (len ≤ length bytes) × (take len bytes ≡ group_bytes n) × (n < 2 ^ 64) }
{}

/// What is read of whole bytes is read of them whatever follows, and a number that is whole with its last byte alone
/// takes all of them.
pub fn bytes_behind_change_nothing()
    ensures more { (bytes more : List ℕ) → is_whole_group bytes ≡ true → group_at (bytes ++ more) ≡ group_at bytes }
    ensures least { (bytes : List ℕ) → is_whole_group bytes ≡ true
        → is_whole_group (take (length bytes - 1) bytes) ≡ false → (n len : ℕ) → group_at bytes ≡ Number n len → len ≡ length bytes }
{}

/// A number takes 1 to 10 bytes, and ten bytes are never too few.
pub fn one_to_ten_bytes()
    ensures read { (bytes : List ℕ) (n len : ℕ) → group_at bytes ≡ Number n len
        → (0 < len) × (len ≤ 10) × (len ≤ length bytes) }
    ensures written { (n : ℕ) → (0 < length (group_bytes n)) × (length (group_bytes n) ≤ 10) }
    ensures short { (bytes : List ℕ) → is_whole_group bytes ≡ false → length bytes < 10 }
{}

/// No spelling begins another, the bytes of a number spell it, and what is read is spelled so.
pub fn no_spelling_begins_another()
    ensures one { (a b x y : List ℕ) (m n : ℕ) → IsGroupNumber a m → IsGroupNumber b n
        → a ++ x ≡ b ++ y → (a ≡ b) × (m ≡ n) }
    ensures spelled { (n : ℕ) → n < 2 ^ 64 → IsGroupNumber (group_bytes n) n }
    ensures read { (bytes : List ℕ) (n len : ℕ) → IsBytes bytes → group_at bytes ≡ Number n len
        → IsGroupNumber (take len bytes) n }
{}
