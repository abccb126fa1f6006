// What --help prints.
pub const HELP: &str = "\
usage: visits [--help] [SCRIPT]

Performs the script in the file SCRIPT, or on standard input where there is none or it is -.

A script is made of lines of words. White space around and between words does not matter. An empty
line, and one whose first word begins with #, is a comment. Numbers are decimal, of 64 bits.

A section keeps notes on a card that nobody can trust, under the memory check:

  card SIZE WIDTH          begins it: a card of SIZE cells of WIDTH bits
  tally sum|xor KEY        the tally of the check; KEY is 1 to 16 hexadecimal digits
                           (without this line: sum under key 0)
  alter AFTER CELL WORD    after AFTER accesses of the card, those that make the check counted,
                           and before the next, CELL holds WORD; by rising AFTER
  write CELL VALUE         writes a note
  read CELL                reads a note
  sweep                    checks all that was read and written since the last sweep

tally and alter are settings, and come before the section's first call. The check is fit for 1 to
4096 cells of 21 to 48 bits; a note has 20 bits less than a cell. Making it takes SIZE accesses, a
write or a read takes 2, and a sweep 2 for each cell.

Each call prints its number in the section, its text and its answer:

  written                            the note was written
  value V                            the note that was read
  passed                             nothing was found
  declined CAUSE at PLACE            the call had no effect
  fault CAUSE height H at PLACE      the check found an alteration; so are all later calls answered

CAUSE is a number and, in brackets, its name. At the end of a section stands what was done: the
number of calls, of sweeps that passed, and the first fault or none.

The first line of a section that makes no sense is named on standard error. Nothing of that section
is performed, the other sections are, and the status is 1. It is 0 where all sections were performed.
";
