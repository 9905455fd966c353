//! The line of a report that lists the extensions of a profile.
ghost use Rattle.std.specs.Prelude.{◌≡◌, [], ◌∷◌, ◌++◌, codes, filter};
ghost use Rattle.std.specs.List.{flat_map, list_any};
ghost use Rattle.devices.specs.Writers.{Writes};
ghost use Rattle.bench.specs.Report.{extension_text, profile_line};
ghost use Rattle.sieve_profile.specs.Extension.{extensions};
ghost use Rattle.sieve_profile.specs.Profile.{has};

use devices::{Piece, Sink, WriteFault, write_out, write_pieces};
use sieve_profile::{EXTENSIONS, Extension, Profile};

/// Whether a profile has one of these extensions.
fn has_any(profile: Profile, extensions: &[Extension]) -> bool
    ensures { result ≡ list_any (has profile) extensions.now }
{
    extensions.iter().any(|extension| profile.has(*extension))
}

/// Writes an extension's name where a profile has the extension.
fn write_extension<W: Sink>(
    profile: Profile,
    extension: Extension,
    writer: &mut W,
) -> Result<(), WriteFault>
    ensures { Writes W.contents W.fault_count result writer.old writer.new
        (flat_map extension_text (filter (has profile) (extension ∷ []))) }
{
    if profile.has(extension) {
        write_pieces(&[Piece::Raw(b" "), Piece::Raw(extension.name())], writer)
    } else {
        write_out(b"", writer)
    }
}

/// Writes the names of those of these extensions that a profile has.
#[tactic(auto, using(crate::proofs::Writing::writing))]
fn write_extensions<W: Sink>(
    profile: Profile,
    extensions: &[Extension],
    writer: &mut W,
) -> Result<(), WriteFault>
    ensures { Writes W.contents W.fault_count result writer.old writer.new
        (flat_map extension_text (filter (has profile) extensions.now)) }
{
    for extension in extensions {
        write_extension(profile, *extension, writer)?;
    }
    Ok(())
}

/// Writes the line with the names of a profile's extensions.
fn write_names<W: Sink>(profile: Profile, writer: &mut W) -> Result<(), WriteFault>
    ensures { Writes W.contents W.fault_count result writer.old writer.new (codes "with"
        ++ (flat_map extension_text (filter (has profile) extensions) ++ codes "\n")) }
{
    write_out(b"with", writer)?;
    write_extensions(profile, &EXTENSIONS, writer)?;
    write_out(b"\n", writer)
}

/// Writes the line with the names of a profile's extensions, where it has any.
pub(crate) fn write_profile<W: Sink>(profile: Profile, writer: &mut W) -> Result<(), WriteFault>
    ensures { Writes W.contents W.fault_count result writer.old writer.new (profile_line profile) }
{
    if has_any(profile, &EXTENSIONS) {
        write_names(profile, writer)
    } else {
        write_out(b"", writer)
    }
}
