ghost use Rattle.std.specs.Prelude.{◌≡◌, ◌<◌, ◌≤◌, ◌++◌, ℕ, List, All, Some, Ok, length, drop, codes};
ghost use Rattle.byteorder.specs.Endian.{little_bytes};
ghost use Rattle.manifest_codec.specs.declared.types.Manifest.{Manifest as AManifest};
ghost use Rattle.manifest_codec.specs.declared.types.Version.{Version as AVersion};
ghost use Rattle.manifest_codec.specs.declared.types.Version.TheVariants.{First};
ghost use Rattle.manifest_codec.specs.Rules.{magic_of, newest_version};
ghost use Rattle.manifest_codec.specs.Spelling.{FitsManifest, longest, spelling, SpellsManifest};
ghost use Rattle.manifest_codec.specs.FieldsRead.{AnswersManifest, reading, manifest_in};

use crate::decoder::decode;
use crate::encoder::encode;
use crate::types::{Manifest, ManifestError};
use std::alloc::Global;

/// What is encoded is decoded again, whatever stands behind it, unless memory runs out.
pub fn encode_then_decode(
    alloc: Global,
    m: &Manifest,
    behind: &[u8],
) -> Result<(Manifest, usize), ManifestError>
    requires { FitsManifest m.now }
    ensures { AnswersManifest result m.now (length (spelling newest_version m.now)) }
{
    let Ok(mut bytes) = encode(alloc, m) else {
        return Err(ManifestError::NoMemory);
    };
    let Ok(()) = bytes.extend_from_slice(behind) else {
        return Err(ManifestError::NoMemory);
    };
    decode(alloc, &bytes)
}

/// The magic of the first version is spelled `GSM1`.
pub fn magics_are_spelled()
    ensures { little_bytes 4 (magic_of First) ≡ codes "GSM1" }
{}

/// What the bytes begin with is read, whatever stands behind it.
pub fn spelling_is_read()
    ensures { (m : AManifest) (bytes : List ℕ) (n : ℕ) → FitsManifest m → SpellsManifest bytes m n → reading bytes ≡ Ok (m, n) }
{}

/// What is read keeps the rules, and the bytes begin with its spelling.
pub fn reading_is_spelling()
    ensures { (bytes : List ℕ) (x : AManifest × ℕ) → All (λ b. b < 256) bytes → reading bytes ≡ Ok x → FitsManifest x.0 × SpellsManifest bytes x.0 x.1 }
{}

/// A file that has a body behind its first byte has more than one byte.
pub fn has_bytes()
    ensures { (file : List ℕ) (m : AManifest) → manifest_in (drop 1 file) ≡ Some m → 1 < length file }
{}

/// No two manifests that keep the rules have one spelling in a version.
pub fn no_shared_spelling()
    ensures { (v : AVersion) (m other : AManifest) → FitsManifest m → FitsManifest other → spelling v m ≡ spelling v other → m ≡ other }
{}

/// A spelling has at most `longest` bytes, which are 1,308,709.
pub fn longest_spelling()
    ensures { (v : AVersion) (m : AManifest) → FitsManifest m → length (spelling v m) ≤ longest }
{}
