//! Laws over charsets. Each of these functions does nothing: its contract is the law.
ghost use Rattle.std.specs.Prelude.{◌≡◌, ℕ, true, false, List, [], ◌∷◌, Some, is_some, codes};
ghost use Rattle.std.specs.List.{list_any};
ghost use Rattle.std.specs.Str.{is_utf8, str_eq_ignore_ascii_case};
ghost use Rattle.base64.specs.GeneralPurpose.{IsBytes};
ghost use Rattle.charsets.specs.Charset.{charset_named, in_utf8};
ghost use Rattle.charsets.specs.declared.charset.Charset.{Charset};
ghost use Rattle.sieve_profile.specs.Profile.{Profile, has};
ghost use Rattle.sieve_profile.specs.declared.extension.Extension.TheVariants.{Charsets};

/// By a profile that lacks `charsets`, exactly `utf-8`, `us-ascii` and `iso-8859-1` are names of
/// charsets, in any case.
#[tactic(auto, using(crate::proofs::Known::three_known))]
pub fn three_charsets_are_known_without_more()
    ensures { (profile : Profile) (name : List ℕ) → has profile Charsets ≡ false → is_some
        (charset_named profile name) ≡ list_any (λ known. str_eq_ignore_ascii_case known name)
        (codes "utf-8" ∷ codes "us-ascii" ∷ codes "iso-8859-1" ∷ []) }
{}

/// Octets of a charset become well-formed UTF-8 (RFC 3629, section 4).
#[tactic(auto, using(crate::proofs::Known::charset_utf8))]
pub fn charsets_become_utf8()
    ensures { (charset : Charset) (octets text : List ℕ) → IsBytes octets
        → in_utf8 charset octets ≡ Some text → is_utf8 text ≡ true }
{}

/// By a profile that has `charsets` a charset is known exactly by one of these names, in any case.
#[tactic(auto, using(crate::proofs::Known::nine_known))]
pub fn charsets_are_known_by_their_names()
    ensures { (profile : Profile) (name : List ℕ) → has profile Charsets ≡ true → is_some
        (charset_named profile name) ≡ list_any (λ known. str_eq_ignore_ascii_case known name)
        (codes "utf-8" ∷ codes "us-ascii" ∷ codes "iso-8859-1" ∷ codes "windows-1250"
        ∷ codes "windows-1251" ∷ codes "windows-1252" ∷ codes "iso-8859-2" ∷ codes "iso-8859-15"
        ∷ codes "koi8-r" ∷ []) }
{}
