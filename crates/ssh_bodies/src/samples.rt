//! Worked examples of the definitions. No caller needs these functions: the check proves their
//! `ensures`.

ghost use Rattle.ssh_bodies.specs.Samples.{KindsRead, KindsRefused, PaddingsRead, PrivateSamplesRead, PrivateSamplesRefused, SignedBytesSample, SshsigSamplesRead};

/// A private key body and bytes cut from it, as the definitions read and write them.
fn private_bodies_as_read()
    ensures { PrivateSamplesRead }
{}

/// The same body with one error.
fn private_bodies_as_refused()
    ensures { PrivateSamplesRefused }
{}

/// The most padding, which is read, and one byte more, which is not.
fn paddings_as_read()
    ensures { PaddingsRead }
{}

/// A private key of each kind.
fn kinds_as_read()
    ensures { KindsRead }
{}

/// Private keys whose fields are not those of their kind.
fn kinds_as_refused()
    ensures { KindsRefused }
{}

/// A file signature, and some with an error.
fn file_signatures_as_read()
    ensures { SshsigSamplesRead }
{}

/// The bytes that a file signature signs.
fn signed_bytes_as_made()
    ensures { SignedBytesSample }
{}
