//! The version of the program. The line is the program's own and not `clap`'s, since of `clap`'s texts a contract
//! says only which bytes they may have. `clap` finds `--version` among the words. It is an order like the
//! subcommands, so its line goes to standard output, with status 0.

/// The line that `--version` writes: the version, which rules and which versions of histories it knows, and what proved it.
pub const VERSION_LINE: &str =
    "metroheap 2.0.0: rules 1 and 2, histories 1 and 2, proved by Rattle logic dac8208d650f15bf\n";
