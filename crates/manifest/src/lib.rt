// The boot manifest (02, l): a release, the digest of its image, and a signature over both. It is judged against the image, the key and the release
// that is settled for the display.
#![tactic(auto)]

ghost use Rattle.std.specs.Prelude.{◌≡◌, ◌+◌, ◌≤◌, length};
ghost use Rattle.sha256.specs.Sha256.{longest};
ghost use Rattle.refusal.specs.Answers.{told};
ghost use Rattle.manifest.specs.Manifest as spec;
ghost use Rattle.manifest.specs.Answers.{head_in, told_head};

use order::Release;
use refusal::Refusal;

const DIGEST_BYTES: usize = 32;

pub fn check(image: &[u8], manifest: &[u8], key: &[u8], settled: Release) -> Result<(), Refusal>
    ensures { told result ≡ spec.checked image.now manifest.now key.now settled }
{
    if sha256::LONGEST < image.len() {
        return Err(Refusal::TooLong);
    }
    let (release, at) = read_head(manifest)?;
    let end = at + DIGEST_BYTES;
    lms::verify(key, &manifest[end..], &manifest[..end])?;
    matched(image, manifest, at, release, settled)
}

// What stands before the signature: the release, and the place of the digest. Its place, and not its bytes: the signature is over what ends there.
fn read_head(manifest: &[u8]) -> Result<(Release, usize), Refusal>
    ensures { told_head manifest.now result ≡ spec.head_at manifest.now 0 }
{
    let (release, at) = number::read(manifest, 0)?;
    if !buffer::fits(manifest.len(), at, DIGEST_BYTES) {
        return Err(Refusal::Cut);
    }
    Ok((release, at))
}

// Judges what was signed: a release, and a digest at a place of the manifest.
fn matched(
    image: &[u8],
    manifest: &[u8],
    at: usize,
    release: Release,
    settled: Release,
) -> Result<(), Refusal>
    requires { (length image.now ≤ longest) × (at + 32 ≤ length manifest.now) }
    ensures { told result ≡ spec.matched image.now (head_in manifest.now release at) settled }
{
    let digest = sha256::digest(image)?;
    if !sha256::stands_at(manifest, at, digest) {
        return Err(Refusal::WrongImage);
    }
    if release != settled {
        return Err(Refusal::WrongRelease);
    }
    Ok(())
}
