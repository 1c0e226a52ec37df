//! The table of codes. Its texts are those of docs/CODES.md, and checks/explained.py compares the
//! two.

/// A row: the code, the sentence that explains it, and what to do about it.
pub(crate) type Texts = (&'static str, &'static str, &'static str);

/// Answers, with `N1` to `N6` for denials.
pub(crate) static ANSWERS: [Texts; 13] = [
    (
        "granted",
        "line N of the file is the first that admits the offer, and every signature is vouched for",
        "status 0. To see why earlier lines do not admit, ask once without --vouch",
    ),
    (
        "rights",
        "what the login may do: port, agent, x11, pty, rc, or none; not printed for a host",
        "what is not named is off",
    ),
    (
        "command",
        "the command that the line or the certificate forces",
        "nothing else is run: look whether it is the one that is meant",
    ),
    (
        "carry",
        "an option whose text is handed to whoever starts the session; it is not read here",
        "read it by sshd(8)",
    ),
    (
        "evidence",
        "a signature that the answer rests on: key, signed bytes, signature, in hexadecimal; the signed bytes of a host's evidence 0 are the exchange hash of --hash",
        "verify it; a good one is a line of the vouch file",
    ),
    (
        "N1",
        "the first line that revokes the key, or the certificate's signer, whichever host it names",
        "the key is not to be trusted",
    ),
    (
        "N2",
        "the first line that may revoke any key: it begins with @revoked and has no base64 that can be read, or it is longer than 65,536 bytes",
        "mend or remove that line",
    ),
    ("N3", "no line admits the offer", "read the reasons"),
    (
        "N4",
        "the first line that admits wants a touch, and the security key's signature tells of none",
        "a later line is not tried. Sign with a touch; or no-touch-required on the line, and in a certificate too",
    ),
    (
        "N5",
        "verify-required of the line or the certificate, and the signature is not a security key's that verified the user",
        "sign with a security key that asks for its PIN, or take verify-required away",
    ),
    (
        "N6",
        "the evidence of index I is not vouched for",
        "verify it and hand it in; if the signature is good, the offer is granted, a file signature vouched for",
    ),
    (
        "vouched",
        "of sshsig: the file signature is for this namespace, and it is vouched for over this message",
        "status 0",
    ),
    (
        "namespace",
        "of sshsig: the file signature is for another namespace than --namespace",
        "names are compared byte for byte: ask for the one that show --kind sshsig prints",
    ),
];

/// G: reasons why a line does not admit the offer.
pub(crate) static REASONS: [Texts; 18] = [
    (
        "G1",
        "the line cannot be read",
        "the code after it says why",
    ),
    (
        "G3",
        "a plain key is offered, and the line is cert-authority",
        "offer a certificate by that key, or add a line for the plain key",
    ),
    (
        "G4",
        "a certificate is offered, and the line with its signer's key is not cert-authority",
        "mark the line, if its key is to sign certificates",
    ),
    (
        "G6",
        "an expiry-time of the line is past",
        "set another one; a time without Z is in the zone of --zone",
    ),
    (
        "G7",
        "the line's from= cannot be read, so it permits nobody",
        "mend the list: an empty item, a bad net, bits set past a net's length",
    ),
    (
        "G8",
        "the line's from= does not permit the client",
        "look at --address, and name the client by --host where the list has names",
    ),
    (
        "G9",
        "the certificate's kind is another than a user's, or for a host than a host's",
        "sign one of the right kind (ssh-keygen -s, with -h for a host)",
    ),
    (
        "G10",
        "the certificate is not yet valid",
        "look at --now and, by show --kind cert, at its times",
    ),
    (
        "G11",
        "the certificate is no longer valid",
        "look at --now and, by show --kind cert, at its times",
    ),
    (
        "G12",
        "the certificate is for none of the principals that the line, or without a list the user, asks for; not for this host",
        "compare the list with the principals that show --kind cert prints",
    ),
    (
        "G19",
        "the certificate names no principal, and --empty-principals never was given",
        "sign one that names the user, or the host",
    ),
    (
        "G13",
        "the certificate has a critical option NAME, which is not known; for a host none is",
        "sign one without it: what is not understood is not passed over",
    ),
    (
        "G14",
        "a critical option stands twice",
        "sign one that has it once",
    ),
    (
        "G15",
        "a critical option's data has not its form",
        "sign one with the form of PROTOCOL.certkeys",
    ),
    (
        "G16",
        "the certificate's source-address cannot be read",
        "sign one whose list has addresses and nets alone",
    ),
    (
        "G17",
        "the certificate's source-address does not permit the address",
        "look at --address; else sign one whose list has it",
    ),
    (
        "G18",
        "line and certificate both force a command, and they differ",
        "make them the same bytes, or take one away",
    ),
    (
        "G20",
        "the offered key, the one in the certificate or the certificate's signer is an RSA key of fewer bits than --rsa-minimum",
        "make a longer key, or one of another kind",
    ),
];

/// L: why a line cannot be read.
pub(crate) static LINES: [Texts; 16] = [
    (
        "L1",
        "the line is longer than 65,536 bytes",
        "shorten it, a comment too",
    ),
    (
        "L2",
        "the option text has not its form: an open quote, an empty item, a name with other signs",
        "close the quote, drop the empty item; no blank stands outside quotes",
    ),
    (
        "L3",
        "an option that sshd(8) does not list; or a first word that was meant as the type, and is not one",
        "mend its name, or drop it",
    ),
    (
        "L4",
        "a flag with a value, or a valued option without one",
        "take the value away; write name=\"value\"",
    ),
    (
        "L5",
        "a second command, from or principals",
        "write one list; drop one command",
    ),
    (
        "L6",
        "an expiry time that is not a date or time of day",
        "YYYYMMDD, YYYYMMDDHHMM or YYYYMMDDHHMMSS, and Z for UTC",
    ),
    ("L7", "key type or base64 is missing", "add it"),
    (
        "L8",
        "the type is not a key's",
        "mend it: names of types are compared byte for byte",
    ),
    (
        "L9",
        "ssh-dss, which is retired",
        "make a key of another type",
    ),
    (
        "L10",
        "the base64 is not the canonical spelling of any bytes",
        "copy the key again, without a blank or a CR in it",
    ),
    (
        "L11",
        "the bytes are not a key",
        "copy the key again; the code after it says what is wrong",
    ),
    (
        "L12",
        "the key is of another type than the line says",
        "write the key's own type",
    ),
    (
        "L13",
        "the type is a certificate's: a line holds plain keys",
        "put its signer's key there, marked as an authority",
    ),
    (
        "L14",
        "of known_hosts: the first field begins with @ and is not a marker",
        "write @cert-authority or @revoked, in lower case",
    ),
    (
        "L15",
        "of known_hosts: names that begin with | and are not a hashed name: |1|, the base64 of 20 bytes, |, the base64 of 20 bytes",
        "write the names, and hash them again (ssh-keygen -H)",
    ),
    (
        "L16",
        "of known_hosts: an item of the list of host names is empty; ! alone is an empty item",
        "drop the comma or the !",
    ),
];

/// F: the findings of a review.
pub(crate) static FINDINGS: [Texts; 22] = [
    (
        "F1",
        "the line cannot be read here, and OpenSSH may read it; the L code follows",
        "count it as access until it is mended: mend or delete the line",
    ),
    (
        "F2",
        "line K has the same key: where that line does not let it in, this one may",
        "two lines speak for one key, and which one counts hangs on the client: keep one",
    ),
    (
        "F3",
        "the line never decides: line K has the same key and lets it in first",
        "delete it",
    ),
    (
        "F4",
        "the line never decides: line K has the same key, lets it in first and gives more",
        "the restriction on this line is not in force: delete line K, or this one if line K is meant",
    ),
    (
        "F5",
        "an RSA key of B bits is too short: they are fewer than --rsa-minimum",
        "ask the owner for a new key (Ed25519), then delete this line",
    ),
    (
        "F6",
        "the line has expired",
        "it lets nobody in any more: delete it. Where an expiry time has no Z, this is told an hour later, since OpenSSH may be late by one",
    ),
    (
        "F7",
        "the line lets nobody in: its from= or principals= list, whichever is named, permits nobody; from-here: nobody here, but OpenSSH may read its from= list otherwise",
        "somebody believes that this key works: mend the list. Where from-here is named, count the line as access until then",
    ),
    (
        "F8",
        "OpenSSH reads the line otherwise: principals= without cert-authority, empty-principal in the list, verify-required of a key that is no security key, local-time of an expiry time without Z where no --zone is given, short-address in from= (127.1), tab after a marker, type of a revocation that is not its key's",
        "write what is meant: both programs then say the same. Count short-address as access until then; a revocation with tab or type, ssh may pass over",
    ),
    (
        "F9",
        "the line's command is forced, but it may still forward: add restrict",
        "the command is fixed, and the host is a tunnel all the same: write restrict,command=..",
    ),
    (
        "F10",
        "the line may revoke any key and cannot be read: here it denies every host, OpenSSH may pass over it",
        "a revocation that OpenSSH does not see: mend it at once",
    ),
    (
        "F11",
        "another key of this type for a name of line K",
        "an old host key that was left, or one that somebody slipped in: ask the host, delete one",
    ),
    (
        "F12",
        "the line's key is both trusted and revoked: see line K; spelling K: line K has another spelling of it",
        "it is denied wherever it stands (N1): delete the trusting line. With spelling K only OpenSSH denies it: revoke the key in the spelling of ssh-keygen too",
    ),
    (
        "F13",
        "one key for all hosts that a pattern names",
        "one stolen host key is good for all of them: use a host authority",
    ),
    (
        "F14",
        "an authority for every host",
        "whoever holds that key can be any host of the world: name your domain",
    ),
    (
        "F15",
        "the key is good from any address: no from=, or from=\"*\"",
        "restrict the source of keys that machines use (NIST IR 7966)",
    ),
    (
        "F16",
        "any command may be run: no command=",
        "restrict the command of keys that machines use (NIST IR 7966)",
    ),
    (
        "F17",
        "the key is good for ever: no expiry-time=",
        "set one: keys are to be rotated",
    ),
    (
        "F18",
        "whoever the authority certifies for the user's name is let in: no principals=",
        "name the principals, or know that the authority decides alone",
    ),
    (
        "F19",
        "nothing says whose key this is: no comment",
        "find the owner, or delete the line",
    ),
    (
        "F20",
        "the names of the line are in clear",
        "whoever reads the file learns where this account goes: ssh_audit hash hides them",
    ),
    (
        "F21",
        "the same host key stands on line K",
        "another name of one host, or two hosts that share a key (cloned machines)",
    ),
    (
        "F22",
        "OpenSSH may refuse this line, and a later one then decides",
        "mend the option, or delete the line. permitopen, permitlisten, environment, tunnel: a text not in the form of sshd(8), or too many of them; nul: a NUL byte; long-item: 1,023 bytes or more in an item; rsa: under 1,024 or over 16,384 bits",
    ),
];

/// Faults: `A1` to `A12`, and those of arguments and files, such as `usage`.
pub(crate) static FAULTS: [Texts; 17] = [
    (
        "A1",
        "the offered blob is not a key; or it is of a certificate's type, and not a certificate",
        "hand in the second field of a .pub or -cert.pub file",
    ),
    (
        "A2",
        "the bytes are not a signature's blob",
        "hand in the whole blob: the algorithm's name and the bytes, each with its length",
    ),
    (
        "A3",
        "the algorithm name does not go with the offer, or the signature has another algorithm; a file signature's is not its key's",
        "for a certificate the name is the certificate's type; the signature's is the plain one",
    ),
    (
        "A4",
        "RSA with SHA-1, by the name or in the signature",
        "sign with rsa-sha2-256 or rsa-sha2-512",
    ),
    (
        "A5",
        "the certificate's own signature does not fit its signer's key, or is RSA with SHA-1",
        "sign the certificate again (-t rsa-sha2-512 for RSA)",
    ),
    (
        "A6",
        "the text is not an address",
        "four decimal numbers, or an IPv6 address without a zone",
    ),
    (
        "A7",
        "the trust file has more than 67,108,864 bytes; of rewrite and hash: it or the new file",
        "split it, or drop comments",
    ),
    ("A8", "memory was refused", "try again with more"),
    (
        "A9",
        "the trust file cannot be read",
        "look at its name and its rights; a folder is not a file",
    ),
    (
        "A10",
        "of an audit in pieces alone: a piece was refused before. No program prints it",
        "begin a new audit",
    ),
    (
        "A11",
        "of sshsig: the body is not an SSHSIG",
        "take its armour off; the code after it says what is wrong",
    ),
    (
        "A12",
        "of hash: there are fewer salts than names to hash",
        "draw 20 bytes for each name",
    ),
    (
        "usage",
        "the words of the command line ask for nothing: one is missing, unknown, given twice, or not in UTF-8; or there is none, on the first line of standard input either",
        "ssh_audit explain usage prints the options of each command",
    ),
    (
        "value",
        "the value of --NAME is none that the option takes; of explain, a word is no code",
        "the manual says what it takes; hexadecimal has two digits a byte, and - for no bytes",
    ),
    (
        "file",
        "the file TEXT cannot be read, or has more than 67,108,864 bytes; of salts: its length is no multiple of 20",
        "look at its name, its rights, its length",
    ),
    (
        "vouch",
        "line LINE of the vouch file is not a triple",
        "three hexadecimal fields with one space between each two, and nothing more",
    ),
    (
        "version",
        "ssh_audit 1.0.0",
        "a package tells the commit too, in share/doc/ssh-trust-audit/VERSION",
    ),
];

/// K: why bytes are not a key.
pub(crate) static KEYS: [Texts; 8] = [
    (
        "K1",
        "a field is bad",
        "copy it again; the code after it says which field, and what is wrong",
    ),
    (
        "K2",
        "the type is unknown",
        "use one of the seven: Ed25519, RSA, ECDSA over three curves, Ed25519 and ECDSA on security keys",
    ),
    ("K3", "the type is ssh-dss", "make a key of another type"),
    (
        "K4",
        "the type is a certificate's",
        "a plain key is wanted here",
    ),
    (
        "K5",
        "the curve's name is another than the type's",
        "copy it again",
    ),
    (
        "K6",
        "the point is of another form or length",
        "write the point uncompressed; no other form is read",
    ),
    ("K7", "the Ed25519 key has not 32 bytes", "copy it again"),
    (
        "K8",
        "the key is longer than 262,144 bytes",
        "no key that is in use is so long",
    ),
];

/// C: why bytes are not a certificate.
pub(crate) static CERTIFICATES: [Texts; 9] = [
    (
        "C1",
        "a field passes the end, or bytes are left at the end",
        "copy it whole, and nothing after it",
    ),
    (
        "C2",
        "the certified key is faulty; the K code follows: K1 with V1, V2, V3 or V5, or K5, K6, K7",
        "see that code; sign a good key",
    ),
    (
        "C3",
        "the signer's key is faulty; the K code follows, any but K4",
        "see that code; sign by a good key",
    ),
    ("C4", "the signer is a certificate", "sign by a plain key"),
    (
        "C5",
        "a principal's length passes the end of its list",
        "sign a new one",
    ),
    (
        "C6",
        "the length of a critical option or of an extension passes the end of its list",
        "sign a new one",
    ),
    (
        "C7",
        "the signature's blob is faulty; the V code follows: V1, V4 or V5",
        "copy it whole; else sign a new one",
    ),
    (
        "C8",
        "the type is not a certificate's",
        "a certificate is wanted here",
    ),
    (
        "C9",
        "the certificate is longer than 262,144 bytes",
        "sign one with fewer principals and options",
    ),
];

/// V: why a field is bad.
pub(crate) static FIELDS: [Texts; 5] = [
    (
        "V1",
        "the field passes the end",
        "the bytes are cut, or a length is wrong: copy all of them",
    ),
    (
        "V2",
        "the field is a number with needless leading bytes",
        "write it with the fewest bytes",
    ),
    (
        "V3",
        "the field is a negative number",
        "write a 0 byte before a first bit that is set",
    ),
    ("V4", "bytes are left after the last field", "drop them"),
    (
        "V5",
        "the field has a value that may not stand there: a zero in an RSA key, a signature blob that is too long",
        "no real key and no real signature has it: copy it again",
    ),
];

/// B: why bytes are not a private key's body or an SSHSIG.
pub(crate) static BODIES: [Texts; 14] = [
    (
        "B1",
        "the bytes do not begin with openssh-key-v1 and a NUL, or with SSHSIG",
        "take the armour off; look at --kind",
    ),
    (
        "B2",
        "cipher or key derivation is not none, or the derivation has options",
        "write it without a passphrase (ssh-keygen -p, on a copy)",
    ),
    (
        "B3",
        "the count of keys is not 1",
        "a file of one key is wanted",
    ),
    (
        "B4",
        "the two check numbers differ",
        "the body is damaged: take another copy",
    ),
    (
        "B5",
        "what follows the comment is not 1, 2, 3 and so on, or has more than 254 bytes",
        "the body is damaged: take another copy",
    ),
    (
        "B6",
        "the private section's length is no multiple of 8",
        "the body is damaged: take another copy",
    ),
    (
        "B7",
        "the section's type name, a public field, or the last 32 of an Ed25519 key's 64 bytes differs from the public key before it, or that string has not 64 bytes",
        "do not use it: its two halves are of two keys",
    ),
    (
        "B8",
        "the version is not 1",
        "sign again with a tool that makes version 1",
    ),
    (
        "B9",
        "the namespace is empty",
        "sign again with one (ssh-keygen -Y sign -n ..)",
    ),
    (
        "B10",
        "the hash is neither sha256 nor sha512",
        "sign again with one of them",
    ),
    (
        "B11",
        "the public key's blob is faulty; the K code follows",
        "see that code; a certificate is not one",
    ),
    (
        "B12",
        "a field cannot be read, a private number is zero, or the signature's blob is faulty; the V code follows",
        "see that code; take another copy",
    ),
    ("B13", "bytes are left after the last field", "drop them"),
    (
        "B14",
        "the body has more than 262,144 bytes",
        "no body of one key or signature is so long",
    ),
];
