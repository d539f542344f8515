ghost use Rattle.std.specs.Prelude.{◌≡◌};
ghost use Rattle.table.specs.Table.{Command, flag_of};

// What each payload type says of its command, as the table has it. Not `new`: as a method that the trait provides it would want of each type an
// impl of From and two laws, and would be no plainer than its two lines there. Nor `bytes`: a trait with the length as a const parameter could have it.
// It was left: its twenty impls would repeat the types' own methods, which are public.
pub trait CommandType {
    ghost command: { Command };

    fn cid() -> u8
        ensures { result ≡ command.cid };

    // Whether it is sent up.
    fn uplink() -> bool
        ensures { result ≡ flag_of command };

    // How many bytes its payload has.
    fn len() -> usize
        ensures { result ≡ command.size };
}
