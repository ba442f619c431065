//! The code by which a server shows that a request to another is its own.

ghost use Rattle.std.specs.Prelude.{◌≡◌};
ghost use Rattle.fedi_mac.specs.Hmac.{hmac};
ghost use Rattle.fedi_mac.specs.Signing.{signed_text};

use crate::mac::Mac;

/// The code of a request under the key that two servers share: the HMAC-SHA-256 of its method, a
/// space, its target, a line feed, the host of the server that sends it, a line feed and its body,
/// which is empty if there is none. The sender sends it; the receiver computes it again and
/// compares the two by `matches`.
#[tactic(auto, unfolding(crate::specs::Signing::signed_text))]
pub fn sign(key: &[u8; 32], method: &[u8], target: &[u8], host: &str, body: &[u8]) -> [u8; 32]
    ensures { result ≡ hmac key.now (signed_text method.now target.now host.now body.now) }
{
    let mut mac = Mac::new(key.as_slice());
    mac.push(method);
    mac.push(b" ");
    mac.push(target);
    mac.push(b"\n");
    mac.push(host.as_bytes());
    mac.push(b"\n");
    mac.push(body);
    mac.finish()
}
