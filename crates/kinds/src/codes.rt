//! That no two kinds of the product are known by one number.
ghost use Rattle.kinds.specs.Kinds.{CodesDiffer};

// There is nothing to run: that the kind numbers differ is what the contract says.
fn codes_differ()
    ensures { CodesDiffer }
{}
