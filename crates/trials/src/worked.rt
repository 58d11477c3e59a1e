//! Worked examples, proved of the definitions that the contracts cite.
ghost use Rattle.trials.specs.Examples.{Examples};

// There is nothing to run: that the examples hold is what the contract says.
fn examples_hold()
    ensures { Examples }
{}
