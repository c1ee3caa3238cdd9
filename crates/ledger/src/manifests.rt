// The boot manifest.
ghost use Rattle.std.specs.Prelude.{◌≡◌};
ghost use Rattle.manifest.specs.Manifest.{checked};
ghost use Rattle.ledger.specs.Answers.{manifest_answer};

use crate::NOWHERE;
use order::{BlockCount, Release};

// The check gives nothing but its verdict: the manifest is accepted where there is no refusal.
#[repr(C)]
#[derive(Drop)]
pub struct ManifestAnswer {
    pub refusal: u32,
    pub place: BlockCount,
}

#[unsafe(no_mangle)]
pub extern "C" fn ledger_check_manifest(
    image: &[u8],
    manifest: &[u8],
    key: &[u8],
    settled: Release,
) -> ManifestAnswer
    ensures { result ≡ manifest_answer (checked image.now manifest.now key.now settled) }
{
    let refusal = match manifest::check(image, manifest, key, settled) {
        Ok(()) => 0,
        Err(refusal) => refusal.number(),
    };
    ManifestAnswer {
        refusal,
        place: NOWHERE,
    }
}
