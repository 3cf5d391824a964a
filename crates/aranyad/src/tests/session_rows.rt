// Messages that are late, repeated, torn or forged.
//
// The messages that are injected and the ids in the texts were computed by a program of its own (Python's hashlib), which
// writes each by `docs/FORMATS.md`. The other words of the texts were worked out by hand from `docs/SCRIPT.md`.
use crate::tests::documents_of_rows::PRIORITIES;
use crate::tests::order_rows::OPENED;
use crate::tests::rows::{FIRST, Row};

pub const ROWS: [Row; 3] = [
    Row {
        name: "messages that come twice and in another order",
        policy: PRIORITIES,
        script: "replica a
replica b
init a begin()
join b a
sync b a
act a low(1)
ask b
answer a 1
act a low(2)
ask b
answer a 3
take b 4
take b 2
take b 4
",
        text: &[
            OPENED,
            "act a: published 1, merges 0, cut 1, entries 1
ask b: message 1
answer a: message 2, commands 1, more no
act a: published 1, merges 0, cut 2, entries 1
ask b: message 3
answer a: message 4, commands 2, more no
take b: added 2, repeat 0, refused 0, cut 1, entries 2
take b: added 0, repeat 1, refused 0, cut 3, entries 0
take b: added 0, repeat 2, refused 0, cut 3, entries 0
",
        ],
        ..FIRST
    },
    Row {
        name: "bytes that are no message, or one of another graph",
        policy: PRIORITIES,
        script: "replica a
init a begin()
inject 01
take a 1
# A response with a merge whose left id isn't the smaller one, and the same with both in order.
inject 0102000000000000000000000000000000000000000000000000000000000000000000000000000001000000420103ffffffffffffffffffffffffffffffffffffffffffffffffffffffffffffffff0000000000000000000000000000000000000000000000000000000000000000
take a 2
inject 01020000000000000000000000000000000000000000000000000000000000000000000000000000010000004201030000000000000000000000000000000000000000000000000000000000000000ffffffffffffffffffffffffffffffffffffffffffffffffffffffffffffffff
take a 3
answer a 1
next a 1
next a 3
answer a 3
# A request for the other graph.
inject 010100000000000000000000000000000000000000000000000000000000000000000000000000
answer a 8
take a 8
take a 4
answer a 9
next a 10
",
        text: &[
            "replica a holds 0
init a: published 1, merges 0, cut 0, entries 1
inject: message 1
take a: refused malformed
inject: message 2
take a: refused malformed
inject: message 3
take a: refused other graph 0000000000000000000000000000000000000000000000000000000000000000
answer a: refused malformed
next a: refused malformed
next a: refused other graph 0000000000000000000000000000000000000000000000000000000000000000
answer a: refused malformed
inject: message 8
answer a: refused other graph 0000000000000000000000000000000000000000000000000000000000000000
take a: refused malformed
take a: no message
answer a: no message
next a: no message
",
        ],
        ..FIRST
    },
    Row {
        name: "forged commands, each refused for its own reason",
        policy: PRIORITIES,
        script: "replica a
init a begin()
# A priority that isn't the declared one.
inject 0102a492a1dda62438521dcf7ad1831bfbc975ad2bb33af5abb73232ae8dc96d87c5000000000000010000007901010000000ba492a1dda62438521dcf7ad1831bfbc975ad2bb33af5abb73232ae8dc96d87c5b5cce7eefa57018aea9db76a5a27040bf0880c5f6dfed5359189b06ce65d541b00044869676800000008000000000000000120d1583162e66c2408b17e5a766d0b530f02dc7774ae3941f7bebec0cf12db22b7
take a 1
# A tag of another body.
inject 0102a492a1dda62438521dcf7ad1831bfbc975ad2bb33af5abb73232ae8dc96d87c5000000000000010000007901010000000aa492a1dda62438521dcf7ad1831bfbc975ad2bb33af5abb73232ae8dc96d87c5b5cce7eefa57018aea9db76a5a27040bf0880c5f6dfed5359189b06ce65d541b000448696768000000080000000000000001208ea4aab9746e596816872851b9877f6f270ed07a78f81c1b7c34895ea80952c3
take a 2
# Seven bytes for a number.
inject 0102a492a1dda62438521dcf7ad1831bfbc975ad2bb33af5abb73232ae8dc96d87c5000000000000010000007801010000000aa492a1dda62438521dcf7ad1831bfbc975ad2bb33af5abb73232ae8dc96d87c5b5cce7eefa57018aea9db76a5a27040bf0880c5f6dfed5359189b06ce65d541b000448696768000000070000000000000020aab8d542de441be4de1ad370ae7cd6683149a9f0302d9d3da7d3e29c289739b1
take a 3
# A command that the policy doesn't have.
inject 0102a492a1dda62438521dcf7ad1831bfbc975ad2bb33af5abb73232ae8dc96d87c50000000000000100000071010100000000a492a1dda62438521dcf7ad1831bfbc975ad2bb33af5abb73232ae8dc96d87c5b5cce7eefa57018aea9db76a5a27040bf0880c5f6dfed5359189b06ce65d541b00044e6f706500000000207311269926a9da86579d4ea3a183168dc4fb5f9bff027539346c4a13aaeb2370
take a 4
# Another author's first command, and one under another policy.
inject 0102a492a1dda62438521dcf7ad1831bfbc975ad2bb33af5abb73232ae8dc96d87c5000000000000020000006e0100463a86d2dff66611ac7634d4acbef7656400f7f19966290c9caaa16717fc1653b5cce7eefa57018aea9db76a5a27040bf0880c5f6dfed5359189b06ce65d541b0005426567696e0000000020ff8ad8c21a5f65bdf69272cb46c99887ad925a4106f67209119b8b9a2bfff3f50000006e01005ae5b1d8694ecb29eeccc05f7a29f95682292666b2599082e4b25c0831f8463158f468f820d490d5fadd64f8a6425a391cd001765dc4edd9dff0b5f3fadc4a960005426567696e0000000020a42d86cc3885b56adce2573c7bd9e5c943f3073d22877d40e7ab597d4dbfb866
take a 5
# Two finalize commands beside each other, and a command behind the second.
inject 0102a492a1dda62438521dcf7ad1831bfbc975ad2bb33af5abb73232ae8dc96d87c5000000000000030000006e0102a492a1dda62438521dcf7ad1831bfbc975ad2bb33af5abb73232ae8dc96d87c5b5cce7eefa57018aea9db76a5a27040bf0880c5f6dfed5359189b06ce65d541b0005436c6f73650000000020a8e3800c86cb3e0e0889fb4976cc6c1f1465582cdaff8fe94b869180aa08db7d0000006e0102a492a1dda62438521dcf7ad1831bfbc975ad2bb33af5abb73232ae8dc96d87c522d0b65b3324b0be8958fbc8b9638928da5dde832573cb8ec8f0ad9a447955290005436c6f7365000000002070fa73c2946f3095978f197a7221a8c938fbb80b2ce76710feae37457d6487380000007801010000000184e3e49e5e6a0e5b9b6f28a371dbea02388d57c1819f8718dacae7f98ad77d6b22d0b65b3324b0be8958fbc8b9638928da5dde832573cb8ec8f0ad9a4479552900034c6f770000000800000000000000012034b39a36ae77547e351235c098c9e4c9608ef30300507767b6ee019d2e2ddbc5
take a 6
# Two claims of one slot, one behind the other.
inject 0102a492a1dda62438521dcf7ad1831bfbc975ad2bb33af5abb73232ae8dc96d87c50000000000000200000082010100000005a492a1dda62438521dcf7ad1831bfbc975ad2bb33af5abb73232ae8dc96d87c5b5cce7eefa57018aea9db76a5a27040bf0880c5f6dfed5359189b06ce65d541b0005436c61696d00000010000000000000000100000000000000052085ec16b791ce84533f0b3aa1d4187f52cc3f106239f8d0e39420d93fe9dda9f300000082010100000005660591aaeed9e0a3d35efdd7cc15faf7e8e092fdb2cdf32edc8503773ccc001922d0b65b3324b0be8958fbc8b9638928da5dde832573cb8ec8f0ad9a447955290005436c61696d0000001000000000000000010000000000000006206cf84279afc0c580dc9ca633e0e9301c0e54c2a3e17696ba2af11c0950609f08
take a 7
# Two words that are one.
inject 0102a492a1dda62438521dcf7ad1831bfbc975ad2bb33af5abb73232ae8dc96d87c50000000000000200000085010100000000a492a1dda62438521dcf7ad1831bfbc975ad2bb33af5abb73232ae8dc96d87c5b5cce7eefa57018aea9db76a5a27040bf0880c5f6dfed5359189b06ce65d541b000353617900000015000000016b000000000000000100000000000000052023e1b5153ac05d972cf9c6a9b9dbfad1238fcc3ba0f5e8e2235e3ab3e24d627100000085010100000000b55f7c6b372e846d333f643ed9d0e466a265f5988dea8289d02772ec4230dbe922d0b65b3324b0be8958fbc8b9638928da5dde832573cb8ec8f0ad9a44795529000353617900000015000000016b0000000000000001000000000000000620d9a43910ef11aa3b89de7c2a865c708b8158c721c67d11737b3f0e098305f0a8
take a 8
# A merge, one whose right parent isn't held, and the graph's own first command.
inject 0102a492a1dda62438521dcf7ad1831bfbc975ad2bb33af5abb73232ae8dc96d87c500000000000003000000420103660591aaeed9e0a3d35efdd7cc15faf7e8e092fdb2cdf32edc8503773ccc0019b55f7c6b372e846d333f643ed9d0e466a265f5988dea8289d02772ec4230dbe9000000420103660591aaeed9e0a3d35efdd7cc15faf7e8e092fdb2cdf32edc8503773ccc0019ffffffffffffffffffffffffffffffffffffffffffffffffffffffffffffffff0000006e0100463a86d2dff66611ac7634d4acbef7656400f7f19966290c9caaa16717fc165358f468f820d490d5fadd64f8a6425a391cd001765dc4edd9dff0b5f3fadc4a960005426567696e0000000020bf7d8d9a46c34ffaaf5b1658608ac3aa6269209df512311eed1ab62665b5ad10
take a 9
take a 9
facts a
effects a
graph a
",
        text: &[
            r#"replica a holds 0
init a: published 1, merges 0, cut 0, entries 1
inject: message 1
take a: added 0, repeat 0, refused 1, cut 1, entries 0
  refused 9824f371847a7c631a51bb00fe4b33acc3b33c0dd512115ea100ccd62240c46b: wrong kind
inject: message 2
take a: added 0, repeat 0, refused 1, cut 1, entries 0
  refused 26bde097a5d5ff85a709fa619b0f8dadc72fe0949cbba3e97da0d6a33432e755: bad envelope
inject: message 3
take a: added 0, repeat 0, refused 1, cut 1, entries 0
  refused a42c204106b85ff96460b80512dacc59c1e759db756d411f45a9eeedfb0b7214: payload
inject: message 4
take a: added 0, repeat 0, refused 1, cut 1, entries 0
  refused a496f1694618754c5553aa27cf446e3ebf8735d835bcccc93bfd89b2469ee280: unknown command
inject: message 5
take a: added 0, repeat 0, refused 2, cut 1, entries 0
  refused 7f8ddc3b2a69f539a6f1fbca7fe42cfbe5abe1a0003061f5e2401aec4ad75c64: other init
  refused a2fd0236217bf8bd600409aa3e110b63ec5a1c82babfcf46f9d37a6172f9112e: other init
inject: message 6
take a: added 1, repeat 0, refused 2, cut 1, entries 1
  refused 84e3e49e5e6a0e5b9b6f28a371dbea02388d57c1819f8718dacae7f98ad77d6b: parallel finalize 5c5757b6de8cc8a3fdd35f5d650faf10ab09651cf55d8bb5e050111d20a8f1c2
  refused e1818fcfac1db3c1394c88efa97dd60b16dabf990cd51408aab034a653cd31a0: missing parent 84e3e49e5e6a0e5b9b6f28a371dbea02388d57c1819f8718dacae7f98ad77d6b
inject: message 7
take a: added 1, repeat 0, refused 1, cut 2, entries 1
  refused af16bf468800c6131b136c30e91c5058e98dd7ff23df37445202743607a0179d: check
inject: message 8
take a: added 1, repeat 0, refused 1, cut 3, entries 1
  refused 06de71f40b38a39a6c8742ee0e665cc12cce17bed7ac2c04e95cd5d8a4b176f7: fault exists
inject: message 9
take a: added 1, repeat 1, refused 1, cut 4, entries 0
  refused b76ca25460d78f08372a2cb5c0c726b41a6381099c6d2e562284db7ef128cef5: missing parent ffffffffffffffffffffffffffffffffffffffffffffffffffffffffffffffff
take a: added 0, repeat 2, refused 1, cut 4, entries 0
  refused b76ca25460d78f08372a2cb5c0c726b41a6381099c6d2e562284db7ef128cef5: missing parent ffffffffffffffffffffffffffffffffffffffffffffffffffffffffffffffff
facts a: 3
  Count[]=>{n: 0}
  Slot[s: 1]=>{v: 5}
  Word[a: "k", b: 1]=>{c: 5}
effects a: 1
  Did { v: 5 }
graph a: 5
  a492a1dda62438521dcf7ad1831bfbc975ad2bb33af5abb73232ae8dc96d87c5 init Begin
  5c5757b6de8cc8a3fdd35f5d650faf10ab09651cf55d8bb5e050111d20a8f1c2 finalize Close parent a492a1dda62438521dcf7ad1831bfbc975ad2bb33af5abb73232ae8dc96d87c5
  660591aaeed9e0a3d35efdd7cc15faf7e8e092fdb2cdf32edc8503773ccc0019 basic Claim priority 5 parent a492a1dda62438521dcf7ad1831bfbc975ad2bb33af5abb73232ae8dc96d87c5
  b55f7c6b372e846d333f643ed9d0e466a265f5988dea8289d02772ec4230dbe9 basic Say priority 0 parent a492a1dda62438521dcf7ad1831bfbc975ad2bb33af5abb73232ae8dc96d87c5
  378cf73a396a69924c4a9b25cb16505120f743012587e189d42ed9a9118af5c0 merge 660591aaeed9e0a3d35efdd7cc15faf7e8e092fdb2cdf32edc8503773ccc0019 b55f7c6b372e846d333f643ed9d0e466a265f5988dea8289d02772ec4230dbe9
"#,
        ],
        ..FIRST
    },
];
