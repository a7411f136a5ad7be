//! Help against the faults of certificates.
ghost use Rattle.std.specs.Prelude.{◌≡◌};
ghost use Rattle.th_messages.specs.Certificates.{certificate_help};

use th_certificate::CertKind;

/// What helps against a fault of a certificate.
pub fn certificate_help(kind: CertKind) -> &'static str
    ensures { result.now ≡ certificate_help kind }
{
    match kind {
        CertKind::BadHeader => "a certificate begins with the line: kind,key,value",
        CertKind::FieldCount => "each line has 3 fields, separated by commas",
        CertKind::BadKind => "the lines are V, then H, L, U and F, and Z last",
        CertKind::BadName => "each point is named once for H, once for L and once for U",
        CertKind::BadNumber =>
            "heights are metres with a dot; flows are numbered 1, 2, 3 and so on",
        CertKind::TooLarge => "a number has too many digits, or the file more than 8 MiB",
        CertKind::Truncated => "the end is missing: get the file again",
        CertKind::NoMemory => "this is no fault of the certificate",
    }
}
