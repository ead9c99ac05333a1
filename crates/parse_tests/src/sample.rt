//! A text that uses every production of the grammar at least once.

pub(crate) const EVERY: &str = "// every production at least once
module top #(parameter W = 4, parameter signed [7:0] LOW = -1, D = 2)
  (input clk,
   input wire rst_n,
   output reg [W-1:0] q,
   output wire done,
   output signed [3:0] level,
   bare);
  input bare;
  output [1:0] pair;
  input wire signed [0:0] one, two;
  output reg held;
  wire a, b = 1'b0;
  wire signed [3:0] s0 = LOW[3:0], s1;
  reg c, d;
  reg signed [W-1:0] count, next;
  integer i, j;
  genvar g, h;
  parameter DEPTH = 8;
  parameter [3:0] FROM = 4'h2, TO = FROM + 1;
  localparam signed SIZE = DEPTH - 1;
  assign a = clk & rst_n;
  assign s1[0] = b, {done, s1[2:1]} = {2{a}}, s1[3 -: 1] = a ? b : c;
  and (x0, a, b);
  nand n0 (x1, a, b), n1 (x2, a, b);
  or o0 (x3, a, b);
  nor (x4, a, b), (x5, b, a);
  xor (x6, a, b);
  xnor (x7, a, b);
  not (x8, x9, a);
  buf b0 (y0, a);
  leaf u0 ();
  leaf u1 (a, , b), u2 (a);
  leaf #(4) u3 (a);
  leaf #(4, LOW) u4 (.x(a), .y());
  leaf #(.W(8), .D()) u5 (.x(a + b));
  always @* c = a;
  always @(*) begin end
  always @(a or b, c) ;
  always @(posedge clk or negedge rst_n)
    if (!rst_n) q <= {W{1'b0}};
    else q <= next;
  always @(negedge pair[0]) begin : named
    held = 1'b0;
    if (a) if (b) d = 1; else d = 0;
    for (i = 0; i < 4; i = i + 1) count[i] <= a;
  end
  always @(a) case (pair)
    2'b00, 2'b01: d = a;
    2'b10: begin d = b; c = a; end
    default: ;
    2'b11: {c, d} = pair;
  endcase
  always @(a) casez (pair)
    2'b1?: count[1 +: 2] = 2'd3;
    default d = a;
  endcase
  always @(a) case (a) endcase
  generate
    for (g = 0; g < W; g = g + 1) begin : bits
      wire local;
      leaf u (local);
    end
    if (W == 4) wire four;
    else if (W > 4) begin : big
      wire five;
    end
    else ;
    case (W)
      1, 2: wire tiny;
      default: begin
        wire other;
        wire another;
      end
    endcase
  endgenerate
  if (D == 2) begin reg extra; end
  case (D) default wire last; endcase
  for (h = 0; h != 2; h = h + 1) begin : rows
  end
endmodule

module leaf #(parameter [3:0] W = 1, signed D = 1) (x, y, z);
  input x;
  output y, z;
  output wire y2;
  assign y = ~x | -x ^ +x;
  assign z = !(x ~^ y) && (x <= y) || x >>> 1 == y ** 2;
endmodule

module none;
endmodule

module empty ();
endmodule

module one #(parameter ONLY = 1) (output reg only);
  generate
  endgenerate
  generate
    if (ONLY) ;
    if (ONLY == 1) begin : first
      generate
        reg inner;
      endgenerate
    end
    case (ONLY) endcase
    case (ONLY)
      default ;
      1: if (ONLY) reg yes; else reg no;
      2, 3: begin : both end
    endcase
  endgenerate
endmodule

module \\odd.name (input \\a+b );
  wire [7:0] v0 = x * y / z % 3;
  wire [7:0] v1 = x << 1 >> 2 <<< 3;
  wire v2 = x < y, v3 = x > y, v4 = x >= y, v5 = x != y;
  wire v6 = x === y, v7 = x !== y;
  wire v8 = &x, v9 = ~&x;
  wire w0 = |x, w1 = ~|x, w2 = ^x, w3 = ~^x, w4 = ^~x;
  wire w5 = x ^~ y;
endmodule

module values;
  wire [31:0] plain = 42;
  wire [31:0] spaced = 1_000;
  wire [7:0] binary = 8'b0000_1111;
  wire [8:0] octal = 9'o17;
  wire [7:0] decimal = 8'd255;
  wire [7:0] hexadecimal = 8'hFf;
  wire signed [7:0] marked = 8'sh7F;
  wire [31:0] sizeless = 'h10;
  wire bit0 = plain[0];
  wire [3:0] low = plain[3:0], up = plain[4 +: 4], down = plain[11 -: 4];
  wire [7:0] joined = {low, up};
  wire [7:0] twice = {2{low, bit0}};
  wire [3:0] nested = ((low));
  wire [3:0] chosen = bit0 ? low : up ? down : 4'd0;
  wire [3:0] most = low - up + down;
  wire [3:0] tight = low ** 2 * up;
  assign plain[8 +: 2] = low[1:0];
endmodule

module waits (input clk, input rst, output reg q);
  reg [1:0] s;
  integer k;
  always @(clk) ;
  always @(posedge clk, posedge rst) begin
    q = 0;
    {q, s[1:0]} <= 3'd1;
    begin : inner
    end
    for (k = 3; k >= 0; k = k - 1) begin
      if (rst) ;
      else case (s)
        0: ;
        default: casez (s) endcase
      endcase
    end
  end
endmodule
";
