//! Worked examples of the definitions. No caller needs these functions: the check proves their
//! `ensures`.

ghost use Rattle.ssh_options.specs.AllNames.{AllNamesAreListed};
ghost use Rattle.ssh_options.specs.Samples.{TextSamplesRead};

/// `Flag::ALL` and `ValueName::ALL` are the options of sshd(8)'s list, in its order.
fn names_as_listed()
    ensures { AllNamesAreListed }
{}

/// Which texts are expiry times.
fn texts_as_read()
    ensures { TextSamplesRead }
{}
