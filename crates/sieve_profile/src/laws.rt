//! Laws over the definitions. Each of these functions does nothing: its contract is the law.
ghost use Rattle.std.specs.Prelude.{◌≡◌, ◌||◌, Some, false};
ghost use Rattle.sieve_profile.specs.Extension.{extension_name, extension_named, same_extension};
ghost use Rattle.sieve_profile.specs.Profile.{Profile, empty_profile, has, with_extension};
ghost use Rattle.sieve_profile.specs.declared.extension.Extension.{Extension};

/// Each extension is found by its name, so no two have one name.
#[tactic(auto, using(crate::proofs::Names::extension_found))]
pub fn extensions_are_found()
    ensures { (extension : Extension)
        → extension_named (extension_name extension) ≡ Some extension }
{}

/// The empty profile has no extension. A profile with an extension has that, and those of before.
#[tactic(auto, using(crate::proofs::Sets::empty_has_none, crate::proofs::Sets::with_has_more))]
pub fn profiles_are_sets()
    ensures empty { (extension : Extension) → has empty_profile extension ≡ false }
    ensures more { (profile : Profile) (extension other : Extension)
        → has (with_extension profile extension) other
        ≡ (has profile other || same_extension extension other) }
{}
