//! The texts that the help of each subcommand begins and ends with.

/// What `replay --help` begins with.
pub const ABOUT_REPLAY: &str = "\
Reads a capture from standard input and, at its end, prints the report of a day: a line for each order
with a fill, and one for each position.

For every fill a broker sends its client's middle office a drop copy: a FIX 4.4 Execution Report
(35=8 with 150=F). A correction (150=G) brings another version of a fill, whole, and a bust (150=H)
takes a fill away with all its corrections. An Allocation Instruction (35=J) books fills to accounts.
A capture is the bytes that came in, message after message, of one broker or of several. Each broker
has a session, which begins with its Logon: messages count by their number, each once and in order.
Bytes that are no whole message with the right BodyLength and CheckSum are passed over, and so are
the messages of brokers that aren't named.";

/// What `replay -h` ends with.
pub const EXAMPLE: &str = "\
Example:
  blotter replay --own MO --day 20240105 BRKA < examples/first_trade.fix";

/// What `replay --help` ends with.
pub const AFTER_REPLAY: &str = "\
A line has these words, with a tab between two. Orders are sorted by broker and then OrderID,
positions by account and then symbol:
  report   DAY
  order    PEER ORDERID SYMBOL SIDE FILLED LEFT VALUE
  position ACCOUNT SYMBOL QUANTITY VALUE
  end      LINES
SIDE is B for buy and S for sell, FILLED the quantity filled, LEFT what is left of the order's
quantity, and an order's VALUE the sum of quantity times price over its fills, as last corrected and
without the busted ones. A position is what its account bought less what it sold, at the prices of its
fills or, where it was allocated, of the allocation. Account * is the house: it has the fills without
an account and those that an allocation names, less what the allocation gave to accounts. LINES is
how many lines of orders and positions stand between.

A report without lines where some are expected: is OWN the TargetCompID(56) of the messages, and
does each broker's part begin with its Logon, number 1?

Example:
  blotter replay --own MO --day 20240105 BRKA < examples/first_trade.fix

Exit status:
  0  done
  1  the input, the output or the capture is at fault
  2  the words of the command line are refused, or help was asked for
  3  no memory is left";

/// What `desk --help` begins with.
pub const ABOUT_DESK: &str = "\
Reads a capture from a file: the messages of one broker or of several, each broker's from its Logon on.
Then it answers the lines that its operator types, or that come from standard input, each at once and
to the end of the input. With --journal it answers by the file that a served day is kept in, also while
the day goes on, as far as it has come. What an operator changes here isn't kept.";

/// What `desk -h` ends with.
pub const DESK_EXAMPLE: &str = "\
Example:
  blotter desk --own MO --capture examples/first_trade.fix BRKA
  blotter desk --own MO --journal 20240105.journal BRKA";

/// What `desk --help` ends with.
pub const AFTER_DESK: &str = "\
The words of a line are divided by tabs (shown here as spaces):
  order BRKA O1             the line of BRKA's order O1 over all days, or none
  position A1 XYZ           the position of account A1 in XYZ over all days, or none; account * is the
                            house
  report 20240105           the report of that day alone
  undo 1                    undoes the newest step, which has to be number 1
  redo                      does again what was undone last
  withdraw 1                takes command 1 out of the book, whatever came after it, where none of that
                            needs it; this is a step too, and can be undone
  mine                      withdraws the newest command in the book
  execution BRKA E1         the commands of an execution's chain with their numbers, and what became of it
  allocation BRKA AL1       the command of an allocation, and the one that ended it
  entry 2                   command 2
  needs 2                   what would stand in the way of withdraw 2
  orders, orders BRKA       the lines of all orders, or of those of BRKA; likewise positions, positions A1
  steps 10                  the newest ten steps, the newest first
  refusals 10               the newest ten commands that the book didn't take, and why
  allocate BRKA AL1 XYZ B 20240105 10.5 1 E1 A1 60 A2 40
                            books executions to accounts: broker, AllocID, symbol, side (B or S), day,
                            price, how many executions and their ExecIDs, and then each account with
                            its quantity

The answers:
  order BRKA O1 XYZ B 100 200 1050    broker, OrderID, symbol, side, quantity filled, quantity left,
                                      value (the sum of quantity times price)
  position A1 XYZ 100 1050            account, symbol, quantity and value; negative where it sold
  report 20240105 ..                  lines of orders and positions, and end with their count
  none                                no such order, position or command; nothing that mine could withdraw
  trade 1 BRKA E1 O1 A1 XYZ B 100 10.5 20240105 300
                                      command 1: broker, ExecID, OrderID, account, symbol, side, quantity,
                                      price, day and the order's size; other commands likewise
  survivor 5, busted 6, allocated 7   of an execution: its last version, the bust that ended it, the
                                      allocation that names it
  needed 7, free                      command 7 needs it; nothing does
  accepted 2, undone 1, redone 1      what was done, with its number
  refused 10 Quantity 100 90          the book doesn't take it: the refusal's number, its name, and
                                      what it names
  refused 12 Needed 4                 so it is with a withdrawal: command 4 needs what is to go
  bad 3 2                             the line isn't understood: 1 an unknown word, 2 too few or too
                                      many words, 3 a bad value and its place after the first word,
                                      4 a line that is too long
  full                                the day's record has no room for another event

Example:
  printf 'order\\tBRKA\\tO1\\nundo\\t1\\n' |
      blotter desk --own MO --capture examples/first_trade.fix BRKA

Exit status:
  0  done
  1  the input, the output, the capture or the journal is at fault, or the file can't be opened
  2  the words of the command line are refused, or help was asked for
  3  no memory is left";

/// What `audit --help` begins with.
pub const ABOUT_AUDIT: &str = "\
Reads a capture from standard input and, at its end, tells what became of each of its messages, in their
order: the audit trail. So it says why a report that a broker sent isn't among the lines of its day.
With --journal it tells of the messages that a served day received, from the file that the day is kept in.";

/// What `audit -h` ends with.
pub const AUDIT_EXAMPLE: &str = "\
Example:
  blotter audit --own MO BRKA BRKB < examples/day_of_two_brokers.fix
  blotter audit --own MO --journal 20240105.journal BRKA BRKB";

/// What `audit --help` ends with.
pub const AFTER_AUDIT: &str = "\
A line has these words, with a tab between two, and - for one that isn't to be had:
  message K OFFSET PEER NUMBER KIND ID BECAME
  sent    TEXT
  skipped OFFSET COUNT
  rest    OFFSET COUNT
  sum     WORD COUNT
  end     K
K is a message's place, from 1, OFFSET where its first byte stands in the capture, from 0, PEER its sender,
NUMBER its MsgSeqNum(34), KIND its MsgType(35), and ID its ExecID(17) or AllocID(70). BECAME is one of
  accepted 7                its command is in the book, under number 7
  refused 10 Quantity 100 90
                            the book doesn't take its command: the refusal's number, its name, and what
                            it names
  rejected 38 5             a Reject is sent: the tag at fault, or 0, and SessionRejectReason(373)
  unsupported               a Business Message Reject is sent
  taken                     its session goes by it, and the book is left alone
  early 3                   its number is above 3, the expected one: what is missing is asked for
  late 3                    its number is below 3, the expected one: it is ignored
  closed 2 TooLow           its session is closed: the reason's number and its name
  passed                    its sender is no broker that is named, or can't be read
Below a message stands what its session would send, with | for SOH. Skipped are bytes between messages
that are passed over, and rest is an unfinished message at the end. The sums say how often each word
stands, and how many bytes are skipped and rest.

Example:
  blotter audit --own MO BRKA BRKB < examples/day_of_two_brokers.fix
  blotter audit --own MO --journal 20240105.journal BRKA BRKB

Exit status:
  0  done
  1  the input, the output, the capture or the journal is at fault
  2  the words of the command line are refused, or help was asked for
  3  no memory is left";

/// What `serve --help` begins with.
pub const ABOUT_SERVE: &str = "\
Waits for brokers to connect over TCP on 127.0.0.1, takes the drop copies that they send, acknowledges
their allocations, and answers the lines that an operator types meanwhile. A broker may connect at any
time, leave, and come back, whatever the others do. The line close, or the end of standard input, ends
the day: each session is logged out, and the day's report is printed.";

/// What `serve -h` ends with.
pub const SERVE_EXAMPLE: &str = "\
Example:
  blotter serve --own MO --day 20240105 --port 9878 --journal 20240105.journal BRKA";

/// What `serve --help` ends with.
pub const AFTER_SERVE: &str = "\
What a broker's engine needs: it connects (as initiator) to 127.0.0.1 and PORT, speaks FIX.4.4 with its own
CompID as SenderCompID(49) and yours as TargetCompID(56), and logs on first, within ten seconds. At the start
of the day its numbers begin at 1, as with ResetSeqNumFlag(141)=Y; when it connects again they go on where they
stopped, so that what was lost is asked for. A heartbeat interval of 1 to 86400 seconds is kept. A broker has one
connection at a time.

The operator's lines are those of `blotter desk`, and the report's lines those of `blotter replay` (see their
help). But mine withdraws the newest command that you have entered here yourself, and never a broker's. Two more
lines:
  close       ends the day; answered closed, and no line after it is read
  sessions    for each broker session PEER on or off EXPECTED, the number that is expected next, and end with
              their count

Standard error tells who comes and goes:
  lanes 6                  how many connections can be served at once
  BRKA on 127.0.0.1:50112  a broker is served, at a connection from this address
  BRKA ended 0 LoggedOut   its connection has ended: a number, and its word
  127.0.0.1:50113 ended 6 NoGreeting
                           so has one that named no broker of yours
  operator alice on        an operator has come over the socket; off when the connection has ended
  no connection can be accepted: WHY
                           the system gives none; it is tried again until it does; so it is with
                           no operator can connect: WHY
  the journal can't be written, so the day ends
                           there is no report, and the program tells why when it ends: at your next line, where
                           your lines come by standard input
The numbers:
  0  the session was closed, for the reason that the word names: a logout, a number below the expected one ..
  1  the broker ended the connection
  2  a read failed, 3  a write failed
  4  more reads than a connection may have
  5  no memory was left for it
  6  no logon came within ten seconds

With --journal the day is kept in a file, as it goes. Killed at any moment and begun again with the same words, it
goes on where it was: what a broker or an operator was told is in the book, and what is missing is asked of the broker
again by its number. A file that isn't there is made; it holds one day. `blotter desk` and `blotter audit` read it.

With --operators the operators come by a socket at PATH, up to sixteen names in a day, in place of standard input,
which is then not read. Each says its name first; `blotter ask PATH` does that for you. The file's permissions say who
may come: it is made for its owner alone, and removed at the end. The day ends by close. Each line of steps and
refusals ends with who made the command: a broker, or an operator's name.

With --sessions the day has rounds instead. A round waits for as many connections as --sessions says, serves them
at once, answers none before the last has come, and is over when each has ended. After the last round and the end
of standard input the report is printed. There is no close and no sessions then, and after a round a line of standard
error tells how each connection ended, in the order in which they came:
  wire 0 ended 1

Examples:
  blotter serve --own MO --day 20240105 --port 9878 BRKA BRKB
  blotter serve --own MO --day 20240105 --port 9878 --journal 20240105.journal BRKA BRKB
  blotter serve --own MO --day 20240105 --port 9878 --operators desk.socket BRKA BRKB
  blotter serve --own MO --day 20240105 --port 9878 --sessions 2 --rounds 3 BRKA BRKB

Exit status:
  0  done
  1  the port, the journal or the socket can't be used, no connection can be accepted for a round, or the input or the
     output is at fault
  2  the words of the command line are refused, or help was asked for
  3  no memory is left";

/// What `ask --help` begins with.
pub const ABOUT_ASK: &str = "\
Connects to a served day whose operators come by a socket, says your name, and sends it the lines that you
type, or that come from standard input. Each answer is printed before the next line is sent. Where a terminal
gives the lines and shows the answers, a prompt says when a line is wanted. It ends at the end of the input;
the day goes on, unless a line was close.";

/// What `ask -h` ends with.
pub const ASK_EXAMPLE: &str = "\
Example:
  blotter ask desk.socket --name alice";

/// What `ask --help` ends with.
pub const AFTER_ASK: &str = "\
The lines and their answers are those of `blotter desk` and `blotter serve` (see their help). You may divide
the words of a line by spaces:
  order BRKA O1             as order, BRKA and O1 with a tab between two
  position \"HOUSE A\" XYZ    what stands between two quotes is one word, or part of one, with its spaces
A line with a tab in it is sent as it is. A line without a word is passed over.

mine withdraws the newest command that was entered under your name, and the last word of each line of steps
and refusals tells who made the command. A name is on once at a time, and sixteen names may come in a day.

Example:
  echo order BRKA O1 | blotter ask desk.socket --name alice

Exit status:
  0  done
  1  nobody serves at PATH, your name isn't let in, the server goes away, or the input or the output is at fault
  2  the words of the command line are refused, or help was asked for
  3  no memory is left";
