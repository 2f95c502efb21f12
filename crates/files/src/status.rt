// What a script gets of an answer: the program ends with its number as the exit status.
ghost use Rattle.std.specs.Prelude.{◌≡◌};
ghost use Rattle.files.specs.declared.status.Status.TheVariants.{Found, Nothing, Failed};

#[derive(Clone, Copy)]
pub enum Status {
    Found,
    Nothing,
    Failed,
}

// There are lines, or yes, or an example.
pub fn found() -> Status
    ensures { result ≡ Found }
{
    Status::Found
}

// None, or no.
pub fn nothing() -> Status
    ensures { result ≡ Nothing }
{
    Status::Nothing
}

// Refused, wrong use or no such file.
pub fn failed() -> Status
    ensures { result ≡ Failed }
{
    Status::Failed
}
