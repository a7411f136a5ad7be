//! Laws that relate the definitions to one another. They compute nothing.

ghost use Rattle.std.specs.Prelude.{◌≡◌, ◌≤◌, ◌↔◌, ℕ, ℤ, List, Err, Ok, length};
ghost use Rattle.th_csv.specs.Records.{Fields, records_of};
ghost use Rattle.th_network.specs.Networks.{AreInRange, AreOfObservations, Survey};
ghost use Rattle.th_certificate.specs.Certified.{Certified};
ghost use Rattle.th_certificate.specs.FirstFaults.{IsFault, IsFaultless, IsFirstFault};
ghost use Rattle.th_certificate.specs.Reading.{certificate_in, certificate_of};
ghost use Rattle.th_certificate.specs.Limits.{max_certificate};
ghost use Rattle.th_certificate.specs.Rows.{IsCertificate};
ghost use Rattle.th_certificate.specs.declared.faults.CertFault.{CertFault};
ghost use Rattle.th_certificate.specs.Texts.{IsCertifiable, certificate_of_version_1, certificate_of_version_2, text_of_version_1, text_of_version_2};

/// Bytes are read as a certificate exactly where they are not too many and their records are its
/// rows: the header, the version with the count of flows, the heights, in version 2 the lowest and
/// the highest, the flows, and the cost.
pub fn certificate_is_its_rows()
    ensures { (bytes : List ℕ) (certified : Certified)
        → (certificate_of bytes ≡ Ok certified)
        ↔ ((length bytes ≤ max_certificate) × IsCertificate (records_of bytes) certified) }
{}

/// Records are refused exactly for the first one that has a fault, or for the one that is missing
/// at their end. Which fault a record has depends on what it is and on the records above it. The
/// only other fault of bytes is that they are too many. Bytes are read exactly if they have no
/// fault.
pub fn fault_is_the_first()
    ensures records { (records : List Fields) (fault : CertFault)
        → (certificate_in records ≡ Err fault) ↔ IsFirstFault records fault }
    ensures bytes { (bytes : List ℕ) (fault : CertFault)
        → (certificate_of bytes ≡ Err fault) ↔ IsFault bytes fault }
    ensures none { (bytes : List ℕ)
        → ((certified : Certified) × (certificate_of bytes ≡ Ok certified)) ↔ IsFaultless bytes }
{}

/// The text of version 1 is read as the certificate with exactly these heights, flows and their
/// cost.
pub fn text_of_version_1_is_read_back()
    ensures { (survey : Survey) (heights : List ℕ → ℤ) (flows : List ℤ)
        → IsCertifiable survey → AreInRange survey heights → AreOfObservations survey flows
        → certificate_of (text_of_version_1 survey heights flows)
        ≡ Ok (certificate_of_version_1 survey heights flows) }
{}

/// The text of version 2 is read as the certificate with exactly these three maps of heights, flows
/// and the cost of the first.
pub fn text_of_version_2_is_read_back()
    ensures { (survey : Survey) (heights low high : List ℕ → ℤ) (flows : List ℤ)
        → IsCertifiable survey
        → AreInRange survey heights → AreInRange survey low → AreInRange survey high
        → AreOfObservations survey flows
        → certificate_of (text_of_version_2 survey heights low high flows)
        ≡ Ok (certificate_of_version_2 survey heights low high flows) }
{}
