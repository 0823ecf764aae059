// What the command line asks for.
ghost use Rattle.std.specs.Prelude.{◌≡◌, true, is_some, Some, None, string_bytes, codes, String as Text, ◌≢◌};
ghost use Rattle.std.specs.declared.alloc.Global.{Global};
ghost use Rattle.console.specs.Calls.{Alone};

#[derive(Drop)]
pub enum Call {
    Help,
    // standard input is followed
    Input,
    File(String),
    Misused,
}

// The call with these first two arguments.
pub fn choose(first: Option<String>, second: Option<String>) -> Call
    ensures misused { is_some second ≡ true → result ≡ Call.Misused }
    ensures input { first ≡ None → second ≡ None → result ≡ Call.Input }
    ensures help { (s : Text Global) → Alone s first second → string_bytes s ≡ codes "--help" → result ≡ Call.Help }
    ensures file { (s : Text Global) → Alone s first second → (string_bytes s ≢ codes "--help") → result ≡ Call.File s }
{
    match first {
        _ if second.is_some() => Call::Misused,
        None => Call::Input,
        Some(word) if word.as_str() == "--help" => Call::Help,
        Some(word) => Call::File(word),
    }
}
