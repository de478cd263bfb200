//! Laws that follow from the definitions alone. Each is the contract of a function that does nothing.

ghost use Rattle.search_commands.specs.Laws.{CertifiedIsChecked, CheckedIsCertified, NoIsNeverYes};

/// If `verify` says no, `check` never says yes to the same tape and declaration, whatever the certificate is; and
/// `check` says yes if and only if `certify` does, unless memory is refused.
pub fn answers_agree<A>()
    ensures verified { NoIsNeverYes A }
    ensures certified { CertifiedIsChecked }
    ensures checked { CheckedIsCertified }
{}
