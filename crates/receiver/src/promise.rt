// Theorems, each the contract of a function.
ghost use Rattle.receiver.specs.Run.{Promise};
ghost use Rattle.receiver.specs.Sent.{Readable};

// Every list of calls of every receiving end over every mode keeps the promises.
pub fn promises_hold()
    ensures { Promise }
{}

// Every tube that is written of what a mode's sealing gives is read as it was sealed.
pub fn tubes_are_read()
    ensures { Readable }
{}
