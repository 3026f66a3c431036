// What the law over whole runs comes to: each function states a theorem by its contract.
ghost use Rattle.histories.specs.Theorems.{NoFreedom, NoTrace};

// Two histories of the same calls that keep the law have the same answers.
pub fn no_freedom()
    ensures { NoFreedom }
{}

// A history that keeps the law keeps it without a call that was refused: later answers are as if it had not been made.
pub fn no_trace()
    ensures { NoTrace }
{}
