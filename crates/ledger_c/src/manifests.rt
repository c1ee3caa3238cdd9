// The boot manifest.
ghost use Rattle.std.specs.Prelude.{◌≡◌};
ghost use Rattle.manifest.specs.Manifest.{checked};
ghost use Rattle.ledger.specs.Answers.{manifest_answer};

use ledger::ManifestAnswer;
use order::Release;

#[unsafe(no_mangle)]
pub extern "C" fn ledger_check_manifest(
    image: &[u8],
    manifest: &[u8],
    key: &[u8],
    settled: Release,
) -> ManifestAnswer
    ensures { result ≡ manifest_answer (checked image.now manifest.now key.now settled) }
{
    ledger::ledger_check_manifest(image, manifest, key, settled)
}
