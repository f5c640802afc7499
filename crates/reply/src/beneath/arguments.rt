// Where the object goes, by the program's arguments.
ghost use Rattle.std.specs.Prelude.{◌≡◌};
ghost use Rattle.reply.specs.Targets.{target_of};

#[derive(Clone, Copy, Debug, PartialEq, Eq)]
pub enum Misuse {
    Arguments,
    NoName,
    LongName,
}

#[derive(Clone, Copy, Debug, PartialEq, Eq)]
pub enum Target {
    Output,
    File,
}

// Of `count` arguments, the program's own name among them. `name`: how many bytes the first one behind it has; None, if they do not fit the store for it.
pub fn from_arguments(count: usize, name: Option<usize>) -> Result<Target, Misuse>
    ensures { result ≡ target_of count name }
{
    if count < 2 {
        return Ok(Target::Output);
    }
    if count > 2 {
        return Err(Misuse::Arguments);
    }
    match name {
        None => Err(Misuse::LongName),
        Some(0) => Err(Misuse::NoName),
        Some(_) => Ok(Target::File),
    }
}
