// What the program says of itself.
pub const HELP: &str = "conformance: whether texts are judged as a table of verdicts expects

  conformance < TABLE    judge each text of a table, and report
  conformance --help     this text

A line of a table is one of these:
  VERDICT TEXT   the verdict that is expected, one space, and the text
  # NAME         the name of the group that begins here
  nothing

VERDICT is one of
  json  the text is JSON by RFC 8259, nested at most 8 deep
  51    the text is longer than 1,024 bytes
  52    arrays and objects are nested deeper than 8
  53    the text is not JSON
51 comes first; 52 and 53 are decided from the left.

TEXT is all that follows the space. In it
  %HH      is the byte with the hexadecimal digits HH, 0 to 9 and A to F
  %*NNNNc  is the character c, NNNN times, for four decimal digits NNNN
  and each other character from space to ~ is itself; so is c above.
%25 is the percent sign, %20 a space where a line ends, %*0000x no byte at all.

Each text with another verdict, and each line that is none of these, is
reported with its line number. Each group is reported with how many of its
texts are as expected, and last come the totals. The program ends with
status 1 where a text or a line was wrong.
";
